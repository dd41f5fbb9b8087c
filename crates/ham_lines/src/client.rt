//! The lines of clients.

ghost use Rattle.std.specs.Prelude.{◌≡◌};
ghost use Rattle.ham_text.specs.Cuts.{words_of};
ghost use Rattle.ham_lines.specs.Clients.{IsClientReading};
ghost use Rattle.ham_lines.specs.ClientReading as reading;

use crate::fault::LineFault;
use crate::named::{NamedAct, NamedCounter, read_act, read_counter, read_relation};
use crate::numbers::two_numbers;
use ham_syntax::{Act, Name, Object};
use ham_text::first_word;

/// What a client asks of its replica in a line.
#[derive(Clone, Copy, Debug, PartialEq, Eq)]
pub enum ClientLine {
    /// To issue an act.
    Issue(Act),
    /// The value of a counter. The key of a plain counter is 0.
    Show { counter: u8, key: u64 },
    /// The rows of a relation.
    Rows { relation: u8 },
    /// What is known of the request of this number to the group.
    Verdict { group: u64, number: u64 },
    /// The log.
    Log,
    /// How many calls of each lane are logged.
    Counts,
    /// The calls of the log.
    Record,
    /// To end the link.
    Quit,
    /// To stop the replica.
    Stop,
}

/// A line of a client as it is written: with names, and not yet with the numbers of what they name.
#[derive(Clone, Copy, Debug, PartialEq, Eq)]
pub enum ClientWritten {
    Issue(NamedAct),
    Show(NamedCounter),
    Rows(Name),
    Verdict { group: u64, number: u64 },
    Log,
    Counts,
    Record,
    Quit,
    Stop,
}

/// The line that the bytes spell. Words are cut at spaces, and empty ones are dropped. It takes no memory.
pub fn read_client(object: &Object, line: &[u8]) -> Result<ClientLine, LineFault>
    ensures { IsClientReading object.now line.now result }
{
    match read_written(line) {
        Some(written) => written.meant(object),
        None => Err(LineFault::NotALine),
    }
}

#[tactic(auto, unfolding(crate::specs::ClientReading::client_of))]
fn read_written(line: &[u8]) -> Option<ClientWritten>
    ensures { result ≡ reading.client_of (words_of line.now) }
{
    let (verb, rest) = first_word(line)?;
    if verb == b"issue".as_slice() {
        read_act(rest).map(ClientWritten::Issue)
    } else if verb == b"show".as_slice() {
        read_counter(rest).map(ClientWritten::Show)
    } else if verb == b"rows".as_slice() {
        read_relation(rest).map(ClientWritten::Rows)
    } else if verb == b"verdict".as_slice() {
        verdict(rest)
    } else if first_word(rest).is_some() {
        None
    } else if verb == b"log".as_slice() {
        Some(ClientWritten::Log)
    } else if verb == b"counts".as_slice() {
        Some(ClientWritten::Counts)
    } else if verb == b"record".as_slice() {
        Some(ClientWritten::Record)
    } else if verb == b"quit".as_slice() {
        Some(ClientWritten::Quit)
    } else if verb == b"stop".as_slice() {
        Some(ClientWritten::Stop)
    } else {
        None
    }
}

fn verdict(line: &[u8]) -> Option<ClientWritten>
    ensures { result ≡ reading.verdict_of (words_of line.now) }
{
    let (group, number) = two_numbers(line)?;
    Some(ClientWritten::Verdict { group, number })
}

impl ClientWritten {
    #[tactic(auto, unfolding(crate::specs::ClientReading::client_meant))]
    fn meant(&self, object: &Object) -> Result<ClientLine, LineFault>
        ensures { result ≡ reading.client_meant object.now self.now }
    {
        match *self {
            ClientWritten::Issue(act) => issue(object, &act),
            ClientWritten::Show(counter) => show(object, &counter),
            ClientWritten::Rows(relation) => rows(object, &relation),
            ClientWritten::Verdict { group, number } => Ok(ClientLine::Verdict { group, number }),
            ClientWritten::Log => Ok(ClientLine::Log),
            ClientWritten::Counts => Ok(ClientLine::Counts),
            ClientWritten::Record => Ok(ClientLine::Record),
            ClientWritten::Quit => Ok(ClientLine::Quit),
            ClientWritten::Stop => Ok(ClientLine::Stop),
        }
    }
}

fn issue(object: &Object, act: &NamedAct) -> Result<ClientLine, LineFault>
    ensures { result ≡ reading.issue_meant object.now act.now }
{
    match act.meant(object) {
        Some(act) => Ok(ClientLine::Issue(act)),
        None => Err(LineFault::UnknownName),
    }
}

fn show(object: &Object, counter: &NamedCounter) -> Result<ClientLine, LineFault>
    ensures { result ≡ reading.show_meant object.now counter.now }
{
    match counter.meant(object) {
        Ok((counter, key)) => Ok(ClientLine::Show { counter, key }),
        Err(fault) => Err(fault),
    }
}

fn rows(object: &Object, relation: &Name) -> Result<ClientLine, LineFault>
    ensures { result ≡ reading.rows_meant object.now relation.now }
{
    match object.relation_named(relation) {
        Some(relation) => Ok(ClientLine::Rows { relation }),
        None => Err(LineFault::UnknownName),
    }
}
