//! The reader of the plain form.

ghost use Rattle.std.specs.Prelude.{◌≡◌, true};
ghost use Rattle.ham_text.specs.Cuts.{parts_of};
ghost use Rattle.ham_forms.specs.Words.{Finds};
ghost use Rattle.ham_plain.specs.Drafts.{draft_after};
ghost use Rattle.ham_plain.specs.PlainFiles.{Reads};

use crate::draft::Draft;
use crate::line::read_line;
use ham_check::Raw;
use ham_forms::{FileFault, Unread};
use ham_lists::NoMemory;
use ham_text::{LineReader, read_lines};
use std::alloc::Global;
use std::mem;

/// What was read of an object so far.
#[derive(Drop)]
pub(crate) struct PlainReader {
    alloc: Global,
    draft: Draft,
}

impl LineReader for PlainReader {
    ghost use Rattle.ham_plain.specs.Drafts.{after, is_whole};

    ghost after = { after };

    ghost ends = { is_whole };

    fn take(&mut self, line: &[u8]) -> Result<bool, NoMemory> {
        let draft = mem::replace(&mut self.draft, Draft::Nothing);
        match next(self.alloc, draft, line) {
            Ok(draft) => {
                self.draft = draft;
                Ok(true)
            }
            Err(Unread::Nothing) => Ok(false),
            Err(Unread::NoMemory) => Err(NoMemory),
        }
    }

    fn may_end(&self) -> bool {
        matches!(self.draft, Draft::Whole(_))
    }
}

impl PlainReader {
    ghost use Rattle.ham_plain.specs.Drafts.{is_whole};

    /// The object whose last line is read.
    fn object(self) -> Raw
        requires { is_whole self ≡ true }
        ensures { self.draft ≡ Draft.Whole result }
    {
        match self.draft {
            Draft::Whole(raw) => raw,
            _ => unreachable!(),
        }
    }
}

/// What is read with one line more.
fn next(alloc: Global, draft: Draft, line: &[u8]) -> Result<Draft, Unread>
    ensures { Finds result (draft_after draft (parts_of 32 line.now)) }
{
    let line = read_line(alloc, line)?;
    draft.with(alloc, line)
}

/// The object that the bytes are the plain form of.
pub fn read_plain(alloc: Global, bytes: &[u8]) -> Result<Raw, FileFault>
    ensures { Reads bytes.now result }
{
    let mut reader = PlainReader {
        alloc,
        draft: Draft::Nothing,
    };
    if let Some(line) = read_lines(&mut reader, bytes)? {
        return Err(FileFault::BadLine { line });
    }
    Ok(reader.object())
}
