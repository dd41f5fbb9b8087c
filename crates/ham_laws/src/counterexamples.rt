//! The laws need their premises: tiny meanings where one premise fails, and the law with it.

ghost use Rattle.std.specs.Prelude.{◌≡◌, ◌⊎◌, ℕ, false, [], ◌∷◌, ◌++◌};
ghost use Rattle.ham_meaning.specs.Relations.{StateCommute, InvariantSufficient, PermissibleRight, PermissibleLeft, IsLawful};
ghost use Rattle.ham_plan.specs.Lists.{In, SameCalls, StartsWith};
ghost use Rattle.ham_syntax.specs.declared.act.Place.{Place};
ghost use Rattle.ham_laws.specs.Executions.{IsSound, IsInOrder, IsClosed, IsWellCoordinated, end_of};
ghost use Rattle.ham_laws.specs.Coordinated.{EndAlike, IsPermissibleThroughout, HoldsThroughout, IsListing};
ghost use Rattle.ham_laws.specs.Single.{single};
ghost use Rattle.ham_laws.specs.Register.{register, first, second, two_settings};
ghost use Rattle.ham_laws.specs.Slips.{unordered, apart_settings, hasty, other_take, two_takes};
ghost use Rattle.ham_laws.specs.Purse.{purse, put_call, take_call, careless, put_and_take};

/// Without closed lists states differ: a register that is set to 1 and then to 2 ends at 2, and the other way round
/// at 1.
pub fn open_lists_end_apart()
    ensures lawful { IsLawful register }
    ensures sound { IsSound register single }
    ensures well { IsWellCoordinated register single two_settings }
    ensures closed { IsClosed register single two_settings (first ∷ second ∷ []) }
    ensures listed { IsListing two_settings (second ∷ first ∷ []) }
    ensures same { SameCalls (first ∷ second ∷ []) (second ∷ first ∷ []) }
    ensures apart { EndAlike register two_settings (first ∷ second ∷ []) (second ∷ first ∷ []) → ⊥ }
{}

/// Without closed lists a call is not permissible at its place, and the invariant fails: a coin is taken before it is
/// put.
pub fn open_lists_break()
    ensures lawful { IsLawful purse }
    ensures sound { IsSound purse single }
    ensures well { IsWellCoordinated purse single (put_and_take []) }
    ensures listed { IsListing (put_and_take []) (take_call ∷ put_call ∷ []) }
    ensures impermissible { IsPermissibleThroughout purse (put_and_take []) (take_call ∷ put_call ∷ []) → ⊥ }
    ensures broken { HoldsThroughout purse (put_and_take []) (take_call ∷ put_call ∷ []) → ⊥ }
{}

/// Without the left part of a sound plan a call is not permissible at its place, and the invariant fails: where a take
/// does not depend on a put, a replica logs it alone.
pub fn free_takes_break()
    ensures lawful { IsLawful purse }
    ensures symmetric { (f g : ℕ) → careless.conflict f g ≡ careless.conflict g f }
    ensures commute { (f g : ℕ) → careless.conflict f g ≡ false → StateCommute purse f g }
    ensures right { (f g : ℕ) → careless.conflict f g ≡ false → InvariantSufficient purse f ⊎ PermissibleRight purse f g }
    ensures well { IsWellCoordinated purse careless (put_and_take (take_call ∷ [])) }
    ensures closed { IsClosed purse careless (put_and_take (take_call ∷ [])) (take_call ∷ []) }
    ensures impermissible { IsPermissibleThroughout purse (put_and_take (take_call ∷ [])) (take_call ∷ []) → ⊥ }
    ensures broken { HoldsThroughout purse (put_and_take (take_call ∷ [])) (take_call ∷ []) → ⊥ }
{}

/// Without the part on commuting states differ: a register is set to 1 at one replica and to 2 at another, and each hears
/// of both.
pub fn unordered_settings_end_apart()
    ensures lawful { IsLawful register }
    ensures symmetric { (f g : ℕ) → unordered.conflict f g ≡ unordered.conflict g f }
    ensures right { (f g : ℕ) → unordered.conflict f g ≡ false → InvariantSufficient register f ⊎ PermissibleRight register f g }
    ensures left { (f g : ℕ) → unordered.depends f g ≡ false → InvariantSufficient register f ⊎ PermissibleLeft register f g }
    ensures well { IsWellCoordinated register unordered apart_settings }
    ensures closed { IsClosed register unordered apart_settings (first ∷ second ∷ []) }
    ensures other_closed { IsClosed register unordered apart_settings (second ∷ first ∷ []) }
    ensures same { SameCalls (first ∷ second ∷ []) (second ∷ first ∷ []) }
    ensures apart { EndAlike register apart_settings (first ∷ second ∷ []) (second ∷ first ∷ []) → ⊥ }
{}

/// Without the right part of a sound plan a call is not permissible at its place, and the invariant fails: two takes of one
/// coin, which commute, are decided apart.
pub fn hasty_takes_break()
    ensures lawful { IsLawful purse }
    ensures symmetric { (f g : ℕ) → hasty.conflict f g ≡ hasty.conflict g f }
    ensures commute { (f g : ℕ) → hasty.conflict f g ≡ false → StateCommute purse f g }
    ensures left { (f g : ℕ) → hasty.depends f g ≡ false → InvariantSufficient purse f ⊎ PermissibleLeft purse f g }
    ensures well { IsWellCoordinated purse hasty two_takes }
    ensures closed { IsClosed purse hasty two_takes (put_call ∷ take_call ∷ other_take ∷ []) }
    ensures impermissible { IsPermissibleThroughout purse two_takes (put_call ∷ take_call ∷ other_take ∷ []) → ⊥ }
    ensures broken { HoldsThroughout purse two_takes (put_call ∷ take_call ∷ other_take ∷ []) → ⊥ }
{}

/// Conflicts that nobody ordered break the invariant under a sound plan, with all else that a run keeps.
pub fn unordered_conflicts_break()
    ensures sound { IsSound purse single }
    ensures in_order { IsInOrder two_takes.before [] two_takes.decided }
    ensures decided_there { (c : Place) → In c two_takes.decided → StartsWith (two_takes.before c ++ c ∷ []) (two_takes.log (two_takes.decider c)) }
    ensures fits { (c : Place) → In c two_takes.decided → purse.Fits (two_takes.act c) }
    ensures permissible_at { (c : Place) → In c two_takes.decided → purse.Permissible (end_of purse two_takes (two_takes.before c)) (two_takes.act c) }
    ensures before_closed { (c : Place) → In c two_takes.decided → IsClosed purse single two_takes (two_takes.before c) }
    ensures logs_closed { (r : ℕ) → IsClosed purse single two_takes (two_takes.log r) }
    ensures impermissible { IsPermissibleThroughout purse two_takes (put_call ∷ take_call ∷ other_take ∷ []) → ⊥ }
    ensures broken { HoldsThroughout purse two_takes (put_call ∷ take_call ∷ other_take ∷ []) → ⊥ }
{}
