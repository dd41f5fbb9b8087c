//! The premises of the laws can be met: a bank whose withdrawals alone conflict.

ghost use Rattle.std.specs.Prelude.{◌≡◌};
ghost use Rattle.ham_syntax.specs.Checked.{IsChecked};
ghost use Rattle.ham_meaning.specs.OfObjects.{meaning};
ghost use Rattle.ham_plan.specs.Lists.{In, SameCalls};
ghost use Rattle.ham_laws.specs.Executions.{IsSound, IsClosed, IsWellCoordinated};
ghost use Rattle.ham_laws.specs.Drain.{LanesOrdered};
ghost use Rattle.ham_laws.specs.Counts.{IsNumbered, ConflictsShareLanes};
ghost use Rattle.ham_laws.specs.Bank.{bank, withdrawals, payments, salary, rent};

/// Two replicas of the bank log the same calls in different orders, each with a deposit before a withdrawal, in a
/// well-coordinated execution under a sound plan.
pub fn orders_differ()
    ensures checked { IsChecked bank }
    ensures sound { IsSound (meaning bank) withdrawals }
    ensures well { IsWellCoordinated (meaning bank) withdrawals payments }
    ensures first_closed { IsClosed (meaning bank) withdrawals payments (payments.log 1) }
    ensures second_closed { IsClosed (meaning bank) withdrawals payments (payments.log 2) }
    ensures same { SameCalls (payments.log 1) (payments.log 2) }
    ensures orders { payments.log 1 ≡ payments.log 2 → ⊥ }
    ensures deposit { In salary (payments.log 1) }
    ensures withdrawal { In rent (payments.log 1) }

    // And what the law of readiness asks for.
    ensures ordered { LanesOrdered payments }
    ensures shared { ConflictsShareLanes (meaning bank) withdrawals payments }
    ensures numbered { IsNumbered payments (λ c. c.number) }
{}
