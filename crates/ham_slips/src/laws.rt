//! What each slip would derive, and that it is false: a rule that is wrong in definition and code alike would break the laws
//! of soundness. Contracts of functions with empty bodies.

ghost use Rattle.std.specs.Prelude.{◌≡◌, [], ◌∷◌, ◌&&◌, true, false};
ghost use Rattle.ham_syntax.specs.Checked.{IsChecked};
ghost use Rattle.ham_meaning.specs.OfObjects.{meaning};
ghost use Rattle.ham_meaning.specs.Relations.{StateCommute, PermissibleRight, PermissibleLeft};
ghost use Rattle.ham_rules.specs.Claims.{effects_at};
ghost use Rattle.ham_rules.specs.Rules.{insert_and_delete, left_listed, right_listed, terms};
ghost use Rattle.ham_rules.specs.Terms.{are_apart_at};
ghost use Rattle.ham_slips.specs.Slips.{tags, put_tag, drop_tag, parameters_apart_at, school, close_course, leave_course, course_of_enrolled, left_listed_without_deletes, seats, first_seat, second_seat, one_of_each};

/// If different parameters were apart, putting a tag and dropping one would commute.
pub fn parameters_may_be_equal()
    ensures checked { IsChecked tags }
    ensures put { effects_at tags 0 ≡ put_tag ∷ [] }
    ensures drop { effects_at tags 1 ≡ drop_tag ∷ [] }
    ensures derived { (insert_and_delete put_tag drop_tag && parameters_apart_at 1 (terms put_tag) (terms drop_tag)) ≡ true }
    ensures right_rule { are_apart_at 1 (terms put_tag) (terms drop_tag) ≡ false }
    ensures fails { StateCommute (meaning tags) 0 1 → ⊥ }
{}

/// If the delete of a row that refers were no listed pair, closing a course wouldn't depend on leaving it.
pub fn deletes_enable_deletes()
    ensures checked { IsChecked school }
    ensures close { effects_at school 0 ≡ close_course ∷ [] }
    ensures leave { effects_at school 1 ≡ leave_course ∷ [] }
    ensures derived { left_listed_without_deletes course_of_enrolled close_course leave_course ≡ false }
    ensures right_rule { left_listed course_of_enrolled close_course leave_course ≡ true }
    ensures fails { PermissibleLeft (meaning school) 0 1 → ⊥ }
{}

/// If rows that differ outside the key were apart, either of two seats of one name could be taken after the other.
pub fn keys_are_apart_in_the_key()
    ensures checked { IsChecked seats }
    ensures first { effects_at seats 0 ≡ first_seat ∷ [] }
    ensures second { effects_at seats 1 ≡ second_seat ∷ [] }
    ensures derived { (right_listed one_of_each first_seat second_seat && are_apart_at 1 (terms first_seat) (terms second_seat)) ≡ true }
    ensures fails { PermissibleRight (meaning seats) 0 1 → ⊥ }
{}
