//! Draws: each gives one of so many, by a number, and the next draw goes by the next number.

ghost use Rattle.std.specs.Prelude.{◌≡◌, ◌<◌, ◌≤◌, length};
ghost use Rattle.ham_bulk.specs.Scripts as scripts;

use ham_syntax::limits::MAX_PARAMS;
use ham_syntax::{Args, Kind, Param};

/// The number after this one.
pub(crate) fn next(number: u64) -> u64
    ensures { result ≡ scripts.next number }
{
    number
        .wrapping_mul(6_364_136_223_846_793_005)
        .wrapping_add(1_442_695_040_888_963_407)
}

/// What is drawn of so many after this number.
pub(crate) fn drawn(number: u64, of: u64) -> u64
    requires { 0 < of }
    ensures drawn { result ≡ scripts.drawn number of }
    ensures below { result < of }
{
    (next(number) >> 33) % of
}

/// How many there are to draw an argument of.
fn many(kind: Kind) -> u64
    ensures many { result ≡ scripts.many kind }
    ensures some { 0 < result }
{
    match kind {
        Kind::Id => 16,
        Kind::Amount => 100,
    }
}

/// The arguments of a method, from the left, and the number after them.
pub(crate) fn arguments(params: &[Param], number: u64) -> (Args, u64)
    requires { length params.now ≤ MAX_PARAMS }
    ensures args { result.0 ≡ scripts.args_drawn params.now number }
    ensures number { result.1 ≡ scripts.after_args params.now number }
{
    let mut args = [0u64; MAX_PARAMS];
    let mut len = 0usize;
    let mut now = number;
    for param in params {
        args[len] = drawn(now, many(param.kind));
        now = next(now);
        len += 1;
    }
    (Args::new(&args[..len]).unwrap(), now)
}
