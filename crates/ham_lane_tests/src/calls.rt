//! Calls that the tests share.

ghost use Rattle.std.specs.Prelude.{◌≡◌, [], ◌∷◌};

use ham_syntax::{Act, Args, Call, Deps};
use std::alloc::Global;

/// Method 0 with one argument.
pub fn act(argument: u64) -> Act
    ensures method { result.method ≡ 0 }
    ensures args { result.args ≡ argument ∷ [] }
{
    Act {
        method: 0,
        args: Args::new(&[argument]).unwrap(),
    }
}

/// The call of a place, with the number as its argument.
pub fn call(alloc: Global, lane: u8, number: u32) -> Call
    ensures lane { result.lane ≡ lane }
    ensures number { result.number ≡ number }
    ensures act { (result.act.method ≡ 0) × (result.act.args ≡ number ∷ []) }
    ensures deps { result.deps ≡ [] }
{
    Call {
        lane,
        number,
        act: act(u64::from(number)),
        deps: Deps::new(alloc),
    }
}
