//! A line as the list of its words.

ghost use Rattle.std.specs.Prelude.{◌≡◌, IfOk};
ghost use Rattle.ham_text.specs.Cuts.{words_of};

use ham_bytes::Words;
use ham_lists::NoMemory;
use ham_text::first_word;
use std::alloc::Global;

/// The words of a line, cut at spaces; empty ones are dropped.
pub fn split(alloc: Global, line: &[u8]) -> Result<Words, NoMemory>
    ensures { IfOk result (λ words. words ≡ words_of line.now) }
{
    let mut words = Words::new(alloc);
    let mut left = line;
    while let Some((word, rest)) = first_word(left) {
        words.push(word)?;
        left = rest;
    }
    Ok(words)
}
