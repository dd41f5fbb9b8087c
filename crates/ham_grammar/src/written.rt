//! Lines as they are written: with names, and not yet with the numbers of what they name.

ghost use Rattle.std.specs.Prelude.{◌≡◌};
ghost use Rattle.ham_text.specs.Cuts.{words_of};
ghost use Rattle.ham_text.specs.Numbers.{numbers_within};
ghost use Rattle.ham_grammar.specs.Reading as reading;

use crate::verb::{Verb, read_verb};
use ham_lines::{
    LineFault, NamedAct, NamedCounter, one_number, read_act, read_counter, read_relation,
    three_numbers, two_numbers,
};
use ham_lists::Items;
use ham_syntax::Name;
use ham_syntax::limits::{MAX_CUTS, MAX_REPLICAS};
use ham_text::{first_number, first_word, number};
use ham_turns::Cuts;
use std::alloc::Global;

/// A line as it is written, by its first word.
#[derive(Debug, Drop)]
pub enum Written {
    Replicas(u8),
    Issue {
        replica: u64,
        act: NamedAct,
    },
    Deliver {
        from: u64,
        to: u64,
        frame: u64,
    },
    Pieces {
        from: u64,
        to: u64,
        first: u64,
        last: u64,
        cuts: Cuts,
    },
    Torn {
        from: u64,
        to: u64,
        frame: u64,
        bytes: u64,
    },
    Tick {
        replica: u64,
    },
    Show {
        replica: u64,
        counter: NamedCounter,
    },
    Rows {
        replica: u64,
        relation: Name,
    },
    Log {
        replica: u64,
    },
    Verdict {
        replica: u64,
        group: u64,
        number: u64,
    },
    Sent {
        from: u64,
        to: u64,
    },
    Frame {
        from: u64,
        to: u64,
        frame: u64,
    },
    Compare {
        one: u64,
        other: u64,
    },
}

/// The line that is written; `NotALine` where none is.
#[tactic(auto, unfolding(crate::specs::Reading::written_after))]
pub(crate) fn read_written(alloc: Global, line: &[u8]) -> Result<Written, LineFault>
    ensures { reading.IsFoundAs (reading.written_of (words_of line.now)) result }
{
    let (word, rest) = first_word(line).ok_or(LineFault::NotALine)?;
    let verb = read_verb(word).ok_or(LineFault::NotALine)?;
    let found = match verb {
        Verb::Replicas => replicas(rest),
        Verb::Issue => issue(rest),
        Verb::Deliver => deliver(rest),
        Verb::Pieces => Some(pieces(alloc, rest)?),
        Verb::Torn => torn(rest),
        Verb::Tick => tick(rest),
        Verb::Show => show(rest),
        Verb::Rows => rows(rest),
        Verb::Log => log(rest),
        Verb::Verdict => verdict(rest),
        Verb::Sent => sent(rest),
        Verb::Frame => frame(rest),
        Verb::Compare => compare(rest),
    };
    found.ok_or(LineFault::NotALine)
}

fn replicas(line: &[u8]) -> Option<Written>
    ensures { result ≡ reading.replicas_found (words_of line.now) }
{
    let count = one_number(line)?;
    if count >= 1 && count <= MAX_REPLICAS as u64 {
        Some(Written::Replicas(count as u8))
    } else {
        None
    }
}

fn issue(line: &[u8]) -> Option<Written>
    ensures { result ≡ reading.issue_found (words_of line.now) }
{
    let (replica, rest) = first_number(line)?;
    let act = read_act(rest)?;
    Some(Written::Issue { replica, act })
}

fn deliver(line: &[u8]) -> Option<Written>
    ensures { result ≡ reading.deliver_found (words_of line.now) }
{
    let (from, to, frame) = three_numbers(line)?;
    Some(Written::Deliver { from, to, frame })
}

fn pieces(alloc: Global, line: &[u8]) -> Result<Written, LineFault>
    ensures { reading.IsFoundAs (reading.pieces_found (words_of line.now)) result }
{
    let (from, rest) = first_number(line).ok_or(LineFault::NotALine)?;
    let (to, rest) = first_number(rest).ok_or(LineFault::NotALine)?;
    let (first, rest) = first_number(rest).ok_or(LineFault::NotALine)?;
    let (last, rest) = first_number(rest).ok_or(LineFault::NotALine)?;
    let cuts = cuts(alloc, rest)?;
    Ok(Written::Pieces {
        from,
        to,
        first,
        last,
        cuts,
    })
}

/// The numbers that the line is, at most `MAX_CUTS`.
fn cuts(alloc: Global, line: &[u8]) -> Result<Cuts, LineFault>
    ensures { reading.IsFoundAs (numbers_within MAX_CUTS (words_of line.now)) result }
{
    let mut cuts = Items::new(alloc);
    let mut left = line;
    while let Some((word, rest)) = first_word(left) {
        if cuts.items().len() == MAX_CUTS {
            return Err(LineFault::NotALine);
        }
        let cut = number(word).ok_or(LineFault::NotALine)?;
        cuts.push(cut)?;
        left = rest;
    }
    Ok(cuts)
}

fn torn(line: &[u8]) -> Option<Written>
    ensures { result ≡ reading.torn_found (words_of line.now) }
{
    let (from, rest) = first_number(line)?;
    let (to, frame, bytes) = three_numbers(rest)?;
    Some(Written::Torn {
        from,
        to,
        frame,
        bytes,
    })
}

fn tick(line: &[u8]) -> Option<Written>
    ensures { result ≡ reading.tick_found (words_of line.now) }
{
    let replica = one_number(line)?;
    Some(Written::Tick { replica })
}

fn show(line: &[u8]) -> Option<Written>
    ensures { result ≡ reading.show_found (words_of line.now) }
{
    let (replica, rest) = first_number(line)?;
    let counter = read_counter(rest)?;
    Some(Written::Show { replica, counter })
}

fn rows(line: &[u8]) -> Option<Written>
    ensures { result ≡ reading.rows_found (words_of line.now) }
{
    let (replica, rest) = first_number(line)?;
    let relation = read_relation(rest)?;
    Some(Written::Rows { replica, relation })
}

fn log(line: &[u8]) -> Option<Written>
    ensures { result ≡ reading.log_found (words_of line.now) }
{
    let replica = one_number(line)?;
    Some(Written::Log { replica })
}

fn verdict(line: &[u8]) -> Option<Written>
    ensures { result ≡ reading.verdict_found (words_of line.now) }
{
    let (replica, group, number) = three_numbers(line)?;
    Some(Written::Verdict {
        replica,
        group,
        number,
    })
}

fn sent(line: &[u8]) -> Option<Written>
    ensures { result ≡ reading.sent_found (words_of line.now) }
{
    let (from, to) = two_numbers(line)?;
    Some(Written::Sent { from, to })
}

fn frame(line: &[u8]) -> Option<Written>
    ensures { result ≡ reading.frame_found (words_of line.now) }
{
    let (from, to, frame) = three_numbers(line)?;
    Some(Written::Frame { from, to, frame })
}

fn compare(line: &[u8]) -> Option<Written>
    ensures { result ≡ reading.compare_found (words_of line.now) }
{
    let (one, other) = two_numbers(line)?;
    Some(Written::Compare { one, other })
}
