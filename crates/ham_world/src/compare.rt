//! Whether two replicas logged the same calls.

ghost use Rattle.std.specs.Prelude.{◌≡◌};
ghost use Rattle.std.specs.List.{list_any};
ghost use Rattle.ham_turns.specs.Words.{same_place};
ghost use Rattle.ham_world.specs.Worlds as worlds;

use ham_replica::Replica;
use ham_syntax::Place;

/// Whether a replica logged the call of a place. It is found by its lane and number, so the log isn't searched.
fn has(replica: &Replica, place: &Place) -> bool
    ensures { result ≡ list_any (same_place place.now) replica.now.lists.log }
{
    replica.call_at(place).is_some()
}

fn is_within(log: &[Place], other: &Replica) -> bool
    ensures { result ≡ worlds.all_in log.now other.now.lists.log }
{
    log.iter().all(|place| has(other, place))
}

/// Whether the logs hold the same calls.
#[tactic(auto, unfolding(crate::specs::Worlds::same_calls))]
pub(crate) fn same_calls(one: &Replica, other: &Replica) -> bool
    ensures { result ≡ worlds.same_calls one.now.lists.log other.now.lists.log }
{
    is_within(one.log(), other) && is_within(other.log(), one)
}
