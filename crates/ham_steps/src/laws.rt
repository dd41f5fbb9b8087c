//! What is true of every state, as contracts of functions with empty bodies.

ghost use Rattle.std.specs.Prelude.{◌≡◌, ℕ, pos, ◌+ℤ◌, List, false, unwrap_or};
ghost use Rattle.std.specs.List.{list_any};
ghost use Rattle.std.specs.List.Sorted.{IsStrictlySortedBy};
ghost use Rattle.std.specs.Ordering.{nat_cmp};
ghost use Rattle.std.specs.Cmp.Lexicographic.{slice_cmp};
ghost use Rattle.ham_steps.specs.declared.step.Step.{Step};
ghost use Rattle.ham_steps.specs.Content.{State, has, value, rows, opening};
ghost use Rattle.ham_steps.specs.Pattern.{is_row};
ghost use Rattle.ham_steps.specs.Steps.{after_steps};
ghost use Rattle.ham_steps.specs.Touch.{last_touch, gains};

/// After steps a row is there where the last step that touches it puts it; a row that none touches, where it was.
pub fn rows_after_steps()
    ensures { (net : List Step) (s : State) (r : ℕ) (x : List ℕ) → has (after_steps net s) r x ≡ unwrap_or (last_touch net r x) (has s r x) }
{}

/// After steps a counter at a key has gained the sum of their changes there.
pub fn values_after_steps()
    ensures { (net : List Step) (s : State) (c k : ℕ) → value (after_steps net s) c k ≡ value s c k +ℤ gains net c k }
{}

/// States that look alike are one state.
pub fn states_are_what_they_show()
    ensures { (s t : State) → ((r : ℕ) (x : List ℕ) → has s r x ≡ has t r x) → ((c k : ℕ) → value s c k ≡ value t c k) → s ≡ t }
{}

/// The rows of a relation are those that it has.
pub fn rows_are_those_it_has()
    ensures { (s : State) (r : ℕ) (x : List ℕ) → list_any (is_row x) (rows s r) ≡ has s r x }
{}

/// The rows of a relation ascend, column by column, and so each stands there once.
pub fn rows_ascend()
    ensures { (s : State) (r : ℕ) → IsStrictlySortedBy (slice_cmp nat_cmp) (rows s r) }
{}

/// The opening state has no row, and every counter is 0.
pub fn opening_shows_nothing()
    ensures rows { (r : ℕ) (x : List ℕ) → has opening r x ≡ false }
    ensures values { (c k : ℕ) → value opening c k ≡ pos 0 }
{}
