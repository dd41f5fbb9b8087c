//! The reader of records.

ghost use Rattle.std.specs.Prelude.{◌≡◌, ℕ, ◌^◌, ◌<◌, ◌≤◌, List, true, length, Err, IfOk};
ghost use Rattle.ham_text.specs.Cuts.{parts_of};
ghost use Rattle.ham_records.specs.declared.records.Logged.{Logged};
ghost use Rattle.ham_records.specs.Texts as texts;

use crate::draft::Draft;
use crate::line::read_line;
use crate::records::{Log, Records};
use ham_lists::{Items, NoMemory as OutOfMemory};
use ham_syntax::Object;
use ham_text::{LineReader, read_lines};
use std::alloc::Global;
use std::mem;
use thiserror::Error;

/// Why a text is not read.
#[derive(Clone, Copy, Debug, PartialEq, Eq, Drop, Error)]
pub enum AuditText {
    /// The first line, from 1, that is none of a text of records; where the end never comes, the one after the last.
    #[error("bad line {line}")]
    BadLine { line: u64 },
    #[error("out of memory")]
    NoMemory,
}

impl From<OutOfMemory> for AuditText {
    ghost use Rattle.std.specs.Prelude.{◌≡◌};
    ghost use Rattle.ham_records.specs.declared.reader.AuditText.TheVariants.{NoMemory};

    ghost from_gives = { λ _ e. e ≡ NoMemory };

    fn from(_e: OutOfMemory) -> AuditText {
        AuditText::NoMemory
    }
}

/// What was read of records so far.
#[derive(Drop)]
pub(crate) struct RecordsReader<'a> {
    alloc: Global,
    object: &'a Object,
    draft: Draft,
}

impl LineReader for RecordsReader<'_> {
    ghost use Rattle.ham_records.specs.Drafts.{after, is_whole};

    ghost after = { after };

    ghost ends = { is_whole };

    fn take(&mut self, line: &[u8]) -> Result<bool, OutOfMemory> {
        let Some(line) = read_line(self.object, line) else {
            return Ok(false);
        };
        let draft = mem::replace(&mut self.draft, Draft::Nothing);
        match draft.with(self.alloc, line)? {
            Some(draft) => {
                self.draft = draft;
                Ok(true)
            }
            None => Ok(false),
        }
    }

    fn may_end(&self) -> bool {
        matches!(self.draft, Draft::Whole(_))
    }
}

impl RecordsReader<'_> {
    ghost use Rattle.ham_records.specs.Drafts.{is_whole};

    /// The logs whose last line is read.
    fn logs(self) -> Items<Log>
        requires { is_whole self ≡ true }
        ensures { self.entry.draft ≡ Draft.Whole result }
    {
        match self.draft {
            Draft::Whole(logs) => logs,
            _ => unreachable!(),
        }
    }
}

/// The records that the text spells, of calls of the object. A call's line is read only where its act fits the object.
pub fn read(alloc: Global, object: &Object, bytes: &[u8]) -> Result<Records, AuditText>
    requires { length bytes.now < 2 ^ 63 }
    ensures text { IfOk result (λ records. texts.IsAuditText object.now records bytes.now) }
    ensures one { IfOk result (λ records. (others : List (List Logged)) → texts.IsAuditText object.now others bytes.now → others ≡ records) }
    ensures bad_line { (line : ℕ) → result ≡ Err (AuditText.BadLine line) → texts.IsBadLine object.now bytes.now line }
    ensures refused { (line : ℕ) → result ≡ Err (AuditText.BadLine line) → (records : List (List Logged)) → texts.IsAuditText object.now records bytes.now → ⊥ }
{
    // Read for what every object keeps: its names differ, so that a call's words name one method.
    object.methods();
    let mut reader = RecordsReader {
        alloc,
        object,
        draft: Draft::Nothing,
    };
    if let Some(line) = read_lines(&mut reader, bytes)? {
        return Err(AuditText::BadLine { line });
    }
    Ok(Records::new(reader.logs()))
}
