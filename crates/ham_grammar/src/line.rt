//! The lines of a schedule.

ghost use Rattle.std.specs.Prelude.{◌≡◌};
ghost use Rattle.ham_grammar.specs.Lines as lines;
ghost use Rattle.ham_grammar.specs.Computed.{read_of, IsReadAs};

use crate::written::read_written;
use ham_lines::LineFault;
use ham_syntax::Object;
use ham_text::first_word;
use ham_turns::Event;
use std::alloc::Global;

/// What a line asks of a run. Replicas, the frames of a link and requests count from 1, groups from 0; a number that isn't
/// there is for the run to refuse.
#[derive(Clone, Copy, Debug, PartialEq, Eq)]
pub enum Query {
    /// The value of a counter at a replica. The key of a plain counter is 0.
    Show {
        replica: u64,
        counter: u8,
        key: u64,
    },
    /// The rows of a relation at a replica.
    Rows {
        replica: u64,
        relation: u8,
    },
    /// The log of a replica.
    Log {
        replica: u64,
    },
    /// What a replica knows of its request to a group.
    Verdict {
        replica: u64,
        group: u64,
        number: u64,
    },
    /// How many frames were sent on a link.
    Sent {
        from: u64,
        to: u64,
    },
    /// The bytes of a sent frame.
    Frame {
        from: u64,
        to: u64,
        frame: u64,
    },
    /// Whether two replicas logged the same calls, and whether their states are equal.
    Compare {
        one: u64,
        other: u64,
    },
}

/// A line of a schedule.
#[derive(Debug, Drop)]
pub enum Line {
    /// The world is made, with so many replicas: 1 to `MAX_REPLICAS`.
    Replicas(u8),
    /// Something happens.
    Act(Event),
    /// Something is asked.
    Ask(Query),
}

/// The line that the bytes spell. Words are cut at spaces, and empty ones are dropped. Only cuts take memory.
pub fn read_line(alloc: Global, object: &Object, line: &[u8]) -> Result<Line, LineFault>
    ensures reading { lines.UnlessNoMemory (lines.IsReading object.now line.now) result }
    ensures read { IsReadAs (read_of object.now line.now) result }
{
    match read_written(alloc, line) {
        Ok(written) => written.meant(object),
        Err(fault) => Err(fault),
    }
}

/// Whether a schedule's line is passed over: it has no word, or its first word begins with `#`. No such line spells
/// anything.
pub fn is_skipped(line: &[u8]) -> bool
    ensures { result ≡ lines.is_skipped line.now }
{
    match first_word(line) {
        Some((word, _)) => is_comment(word),
        None => true,
    }
}

fn is_comment(word: &[u8]) -> bool
    ensures { result ≡ lines.is_comment word.now }
{
    match word {
        [first, ..] => *first == b'#',
        [] => false,
    }
}
