//! What a replica is asked.

ghost use Rattle.std.specs.Prelude.{◌≡◌, get_or, IsTrue, ◌↔◌, []};
ghost use Rattle.std.specs.Option.{option_copied};
ghost use Rattle.ham_turns.specs.Words.{numbered};
ghost use Rattle.ham_turns.specs.Ready.{IsSettled};
ghost use Rattle.ham_site.specs.Sites.{setting_at};
ghost use Rattle.ham_replica.specs.Values.{words};
ghost use Rattle.ham_replica.specs.Kept.{IsKept};
ghost use Rattle.ham_replica.specs.Shown.{lists_of};
ghost use Rattle.ham_replica.specs.Looks.{logged_call};

use crate::held::Held;
use crate::refuse::call_came;
use ham_site::Site;
use ham_syntax::{Call, Place};

/// Whether no call that waits is ready.
pub(crate) fn is_settled(site: &Site, held: &Held) -> bool
    requires { IsKept site.now (lists_of held.now) }
    ensures { IsTrue result ↔ IsSettled (setting_at site.now) (words (lists_of held.now)) }
{
    held.buffer.is_settled(&held.logged, &held.counts)
}

/// The call of a place that was decided here.
fn call_decided<'a>(held: &'a Held, place: &Place) -> Option<&'a Call>
    ensures { option_copied result ≡ numbered (get_or (lists_of held.now).decided place.now.lane []) place.now.number }
{
    match held.outs.get(place.lane as usize) {
        Some(lane) => lane.call(place.number),
        None => None,
    }
}

/// The logged call of a place.
pub(crate) fn call_logged<'a>(held: &'a Held, place: &Place) -> Option<&'a Call>
    ensures { option_copied result ≡ logged_call (lists_of held.now) place.now }
{
    match call_decided(held, place) {
        Some(call) => Some(call),
        None => call_came(held, place),
    }
}
