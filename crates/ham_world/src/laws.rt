//! What is so of every world.

ghost use Rattle.ham_world.specs.Claims.{WorldsAreFaithful};

use ham_runs::laws::{inputs_give_runs, runs_are_faithful};

/// What any events make of a world that was begun is a faithful run.
pub fn worlds_are_faithful()
    ensures { WorldsAreFaithful }
{
    runs_are_faithful();
    inputs_give_runs();
}
