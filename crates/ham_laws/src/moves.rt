//! The steps of the reordering, each by itself.

ghost use Rattle.ham_syntax.specs.Objects.{Schema};
ghost use Rattle.ham_syntax.specs.Checked.{IsChecked};
ghost use Rattle.ham_meaning.specs.OfObjects.{meaning};
ghost use Rattle.ham_laws.specs.Moves.{CutsClosed, CutsEndAlike, MovesLeft, MovesRight};

/// A closed list stays closed, and ends in the same state, when its calls that stand in another closed list too are put
/// before the rest, each part in its own order.
pub fn cuts_are_closed()
    ensures closed { (o : Schema) → IsChecked o → CutsClosed (meaning o) }
    ensures alike { (o : Schema) → IsChecked o → CutsEndAlike (meaning o) }
{}

/// An act that is permissible after permissible acts was permissible before them, if it is invariant-sufficient or
/// permissible-left of each.
pub fn acts_move_left()
    ensures { (o : Schema) → IsChecked o → MovesLeft (meaning o) }
{}

/// An act that is permissible before permissible acts is permissible after them, if it is invariant-sufficient or
/// permissible-right of each.
pub fn acts_move_right()
    ensures { (o : Schema) → IsChecked o → MovesRight (meaning o) }
{}
