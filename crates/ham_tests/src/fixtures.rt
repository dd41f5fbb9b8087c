//! What the runs share: the bank, and the words of a replay.

ghost use Rattle.std.specs.Prelude.{◌≡◌, [], ◌∷◌, map, IfOk, codes};

use ham_bytes::{MemShelf, Words};
use std::alloc::Global;
use std::test::Fail;

/// An account that stays at zero or above.
pub const BANK: &[u8] =
    b"hamsaz object 1\ncounter balance plain\ninvariant low balance 0\nmethod deposit\nparam a amount\neffect add balance a\nmethod withdraw\nparam a amount\neffect subtract balance a\nend\n";

/// A shelf that holds an object named `bank` and a schedule named `plan`.
pub fn shelf_of(alloc: Global, object: &[u8], schedule: &[u8]) -> Result<MemShelf, Fail>
    ensures { IfOk result (λ shelf. shelf ≡ record { files = record { name = codes "bank"; bytes = object.now } ∷ record { name = codes "plan"; bytes = schedule.now } ∷ []; sought = []; calls = 0; failing = []; faults = 0 }) }
{
    let mut shelf = MemShelf::new(alloc);
    shelf.add(b"bank", object)?;
    shelf.add(b"plan", schedule)?;
    Ok(shelf)
}

/// The words of a command.
pub fn words_of(alloc: Global, all: &[&[u8]]) -> Result<Words, Fail>
    ensures { IfOk result (λ words. words ≡ map (λ w. w.now) all.now) }
{
    let mut words = Words::new(alloc);
    for word in all {
        words.push(word)?;
    }
    Ok(words)
}
