//! A turn of one replica of several.

ghost use Rattle.std.specs.Prelude.{◌≡◌, ◌≢◌, ◌⊎◌, ℕ, ◌-◌, ◌≤◌, length, IfOk, IfErr, OnOk, None, Some, slice_get};
ghost use Rattle.ham_frame.specs.Spelling.{Fits};
ghost use Rattle.ham_turns.specs.declared.turn.What.TheVariants as whats;
ghost use Rattle.ham_turns.specs.declared.turn.IssueRefusal.TheVariants as issue_refusals;
ghost use Rattle.ham_turns.specs.declared.turn.DeliverRefusal.TheVariants as deliver_refusals;
ghost use Rattle.ham_turns.specs.Settings.{setting_of, IsReplica};
ghost use Rattle.ham_turns.specs.Words.{ActComes, FrameComes, Beat};
ghost use Rattle.ham_replica.specs.Values.{Replica};
ghost use Rattle.ham_world.specs.Keeping.{TurnsAt, IsSettledAt, refuses_issue, refuses_delivery};

use ham_frame::Frame;
use ham_lists::NoMemory;
use ham_replica::Replica;
use ham_site::Turn;
use ham_syntax::Act;
use ham_turns::{DeliverRefusal, Delivered, IssueRefusal, Issued};

/// A client's act at the `at`-th replica.
pub(crate) fn issue(
    replicas: &mut Vec<Replica>,
    at: u8,
    act: &Act,
) -> Result<Turn<Issued>, IssueRefusal>
    requires some { 1 ≤ at }
    requires within { at ≤ length replicas.old.items }
    requires settled { IsSettledAt replicas.old.items at }
    ensures turn { IfOk result (λ t. TurnsAt replicas.old.items replicas.new.items at (ActComes act.now)
        (whats.Issued t.answer) t.logged t.out t.settled) }
    ensures taken { OnOk result ((v : Replica) → slice_get replicas.old.items (at - 1) ≡ Some v
        → refuses_issue v act.now ≡ None) }
    ensures refused { IfErr result (λ why. (replicas.new.items ≡ replicas.old.items)
        × ((why ≡ issue_refusals.NoMemory)
        ⊎ ((v : Replica) → slice_get replicas.old.items (at - 1) ≡ Some v → refuses_issue v act.now ≡ Some why))) }
{
    let replica = &mut replicas[usize::from(at) - 1];
    replica.issue(act)
}

/// A frame at the `at`-th replica.
pub(crate) fn deliver(
    replicas: &mut Vec<Replica>,
    at: u8,
    from: u8,
    frame: &Frame,
) -> Result<Turn<Delivered>, DeliverRefusal>
    requires some { 1 ≤ at }
    requires within { at ≤ length replicas.old.items }
    requires settled { IsSettledAt replicas.old.items at }
    requires from { (v : Replica) → slice_get replicas.old.items (at - 1) ≡ Some v
        → IsReplica (setting_of v.site.plan) from × (from ≢ v.site.me) }
    requires fits { Fits frame.now }
    ensures turn { IfOk result (λ t. (which : ℕ) → TurnsAt replicas.old.items replicas.new.items at
        (FrameComes from which frame.now) (whats.Delivered t.answer) t.logged t.out t.settled) }
    ensures refused { IfErr result (λ why. (why ≡ deliver_refusals.NoMemory)
        ⊎ ((v : Replica) → slice_get replicas.old.items (at - 1) ≡ Some v
        → refuses_delivery v from frame.now ≡ Some why)) }
{
    let replica = &mut replicas[usize::from(at) - 1];
    replica.deliver(from, frame)
}

/// A tick at the `at`-th replica.
pub(crate) fn tick(replicas: &mut Vec<Replica>, at: u8) -> Result<Turn<()>, NoMemory>
    requires some { 1 ≤ at }
    requires within { at ≤ length replicas.old.items }
    requires settled { IsSettledAt replicas.old.items at }
    ensures turn { IfOk result (λ t. TurnsAt replicas.old.items replicas.new.items at Beat whats.Ticked
        t.logged t.out t.settled) }
{
    let replica = &mut replicas[usize::from(at) - 1];
    replica.tick()
}
