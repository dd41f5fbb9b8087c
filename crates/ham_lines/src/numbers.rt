//! Lines that are a few numbers.

ghost use Rattle.std.specs.Prelude.{◌≡◌};
ghost use Rattle.ham_text.specs.Cuts.{words_of};
ghost use Rattle.ham_text.specs.Numbers.{numbers_within};
ghost use Rattle.ham_lines.specs.Reading as reading;

use ham_syntax::Args;
use ham_syntax::limits::MAX_PARAMS;
use ham_text::{first_number, first_word, number};

/// The number that a line is: its only word. None where it isn't one number.
pub fn one_number(line: &[u8]) -> Option<u64>
    ensures { result ≡ reading.one_number (words_of line.now) }
{
    let (first, rest) = first_number(line)?;
    match first_word(rest) {
        None => Some(first),
        Some(_) => None,
    }
}

/// The two numbers that a line is; none where it isn't two.
pub fn two_numbers(line: &[u8]) -> Option<(u64, u64)>
    ensures { result ≡ reading.two_numbers (words_of line.now) }
{
    let (first, rest) = first_number(line)?;
    let second = one_number(rest)?;
    Some((first, second))
}

/// The three numbers that a line is; none where it isn't three.
pub fn three_numbers(line: &[u8]) -> Option<(u64, u64, u64)>
    ensures { result ≡ reading.three_numbers (words_of line.now) }
{
    let (first, rest) = first_number(line)?;
    let (second, third) = two_numbers(rest)?;
    Some((first, second, third))
}

/// The arguments that a line is: numbers, at most `MAX_PARAMS`. None where a word is no number, or there are more.
pub(crate) fn arguments(line: &[u8]) -> Option<Args>
    ensures { result ≡ numbers_within MAX_PARAMS (words_of line.now) }
{
    let mut numbers = [0u64; MAX_PARAMS];
    let mut count = 0usize;
    let mut left = line;
    while let Some((word, rest)) = first_word(left) {
        if count == MAX_PARAMS {
            return None;
        }
        numbers[count] = number(word)?;
        count += 1;
        left = rest;
    }
    Args::new(&numbers[..count])
}
