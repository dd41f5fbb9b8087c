//! Limits of counters after steps.

ghost use Rattle.std.specs.Prelude.{◌≡◌, ◌^◌, ◌≤◌, ◌+ℤ◌, int_le, nat_abs};
ghost use Rattle.ham_syntax.specs.declared.object.Invariant.TheVariants as invariants;
ghost use Rattle.ham_steps.specs.Steps.{IsWithin};
ghost use Rattle.ham_steps.specs.Touch as touch;
ghost use Rattle.ham_content.specs.Kept.{content};
ghost use Rattle.ham_state.specs.Ahead.{is_sound_after};

use crate::ahead::Ahead;
use ham_content::tables::value;
use ham_steps::{Row, Step};

fn gain(step: &Step, counter: u8, key: u64) -> i128
    requires { IsWithin (2 ^ 32) step.now }
    ensures gain { result ≡ touch.gain step.now counter key }
    ensures small { nat_abs result ≤ 2 ^ 32 }
{
    match *step {
        Step::Change {
            counter: of,
            key: at,
            by,
        } => if of == counter && at == key { by } else { 0 },
        Step::Insert { .. } => 0,
        Step::Delete { .. } => 0,
    }
}

/// What the steps together add to the counter at the key.
fn gains(ahead: &Ahead, counter: u8, key: u64) -> i128
    ensures sum { result ≡ touch.gains ahead.now.steps.now counter key }
    ensures small { nat_abs result ≤ 2 ^ 35 }
{
    let mut sum = 0;
    for step in ahead.steps {
        sum += gain(step, counter, key);
    }
    sum
}

/// Whether the number with what it gains is at least the limit. The gain goes to the limit's side, where nothing overflows.
fn is_at_least(limit: i64, number: i128, gain: i128) -> bool
    requires { nat_abs gain ≤ 2 ^ 35 }
    ensures { result ≡ int_le limit (number +ℤ gain) }
{
    i128::from(limit) - gain <= number
}

/// Whether the number with what it gains is at most the limit.
fn is_at_most(limit: i64, number: i128, gain: i128) -> bool
    requires { nat_abs gain ≤ 2 ^ 35 }
    ensures { result ≡ int_le (number +ℤ gain) limit }
{
    number <= i128::from(limit) - gain
}

/// Whether the counter is at least the limit at the spot after the steps.
pub fn is_low_sound(ahead: &Ahead, counter: u8, limit: i64, spot: &Row) -> bool
    ensures { result ≡ is_sound_after (content ahead.now.facts.now ahead.now.amounts.now) (invariants.Low counter limit) ahead.now.steps.now spot.now }
{
    let ids = spot.items();
    if ids.len() != 1 {
        return true;
    }
    let key = ids[0];
    is_at_least(
        limit,
        value(ahead.facts, ahead.amounts, counter, key),
        gains(ahead, counter, key),
    )
}

/// Whether the counter is at most the limit at the spot after the steps.
pub fn is_high_sound(ahead: &Ahead, counter: u8, limit: i64, spot: &Row) -> bool
    ensures { result ≡ is_sound_after (content ahead.now.facts.now ahead.now.amounts.now) (invariants.High counter limit) ahead.now.steps.now spot.now }
{
    let ids = spot.items();
    if ids.len() != 1 {
        return true;
    }
    let key = ids[0];
    is_at_most(
        limit,
        value(ahead.facts, ahead.amounts, counter, key),
        gains(ahead, counter, key),
    )
}
