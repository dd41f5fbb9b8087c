//! Calls by number.

ghost use Rattle.std.specs.Prelude.{◌≡◌};
ghost use Rattle.std.specs.Option.{option_copied};
ghost use Rattle.ham_lane.specs.Lanes.{numbered};

use ham_syntax::Call;

/// The call of this number, counted from 1.
pub(crate) fn call_numbered(calls: &[Call], number: u32) -> Option<&Call>
    ensures { option_copied result ≡ numbered calls.now number }
{
    if number == 0 {
        return None;
    }
    calls.get(number as usize - 1)
}
