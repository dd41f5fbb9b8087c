//! What the words of the command line ask.

ghost use Rattle.std.specs.Prelude.{◌≡◌, Some, None, MatchOption};
ghost use Rattle.std.specs.List.{list_all};
ghost use Rattle.std.specs.Str.{is_utf8};
ghost use Rattle.ham_cli.specs.Commands as commands;
ghost use Rattle.ham_cli.specs.Reading as reading;

use crate::audits::MAX_RECORDS_BYTES;
use crate::named::NamedClaim;
use ham_bulk::MAX_ROUNDS;
use ham_syntax::Word;
use ham_syntax::limits::{MAX_OBJECT_BYTES, MAX_REPLICAS, MAX_SCHEDULE_BYTES};
use ham_text::number;

/// A command: the name of its object's file, and what is asked of that object.
#[derive(Clone, Copy, Debug)]
pub struct Command<'a> {
    pub object: &'a [u8],
    pub task: Task<'a>,
}

/// What is asked of an object.
#[derive(Clone, Copy, Debug)]
pub enum Task<'a> {
    /// Its plain form.
    Normal,
    /// The run that a schedule makes.
    Replay { schedule: &'a [u8] },
    /// The logs of the run that a schedule makes.
    Record { schedule: &'a [u8] },
    /// Whether records have a fault.
    Audit { file: &'a [u8] },
    /// Whether a file is a good derivation.
    Check { file: &'a [u8] },
    /// A derivation of a claim.
    Derive { claim: NamedClaim },
    /// A case that shows a claim false.
    Example { claim: NamedClaim },
    /// The tables of its plan.
    Tables { replicas: u8 },
    /// What became of a script's run.
    Bulk { drawing: Drawing },
    /// A script.
    Script { drawing: Drawing },
}

/// A number, and how many replicas and rounds there are in the script that is drawn by it.
#[derive(Clone, Copy, Debug)]
pub struct Drawing {
    pub seed: u64,
    pub replicas: u8,
    pub rounds: u32,
}

/// A file beside the object's, and its greatest length in bytes.
#[derive(Clone, Copy, Debug)]
pub struct Need<'a> {
    pub name: &'a [u8],
    pub limit: u64,
}

impl<'a> Task<'a> {
    /// The file that is read beside the object's.
    pub(crate) fn need(&self) -> Option<Need<'a>>
        ensures { MatchOption result (commands.beside (commands.seen self.now) ≡ None) (λ need. commands.beside (commands.seen self.now) ≡ Some (commands.seen_need need)) }
    {
        match *self {
            Task::Replay { schedule } => Some(Need {
                name: schedule,
                limit: MAX_SCHEDULE_BYTES,
            }),
            Task::Record { schedule } => Some(Need {
                name: schedule,
                limit: MAX_SCHEDULE_BYTES,
            }),
            Task::Audit { file } => Some(Need {
                name: file,
                limit: MAX_RECORDS_BYTES,
            }),
            Task::Check { file } => Some(Need {
                name: file,
                limit: MAX_OBJECT_BYTES,
            }),
            Task::Normal => None,
            Task::Derive { .. } => None,
            Task::Example { .. } => None,
            Task::Tables { .. } => None,
            Task::Bulk { .. } => None,
            Task::Script { .. } => None,
        }
    }
}

/// What the words after the program's name ask; none where they are no command's.
pub(crate) fn command_of(words: &[Word]) -> Option<Command<'_>>
    ensures asks { MatchOption result (commands.AsksNothing words.now) (λ command. commands.Asks words.now command.object.now (commands.seen command.task)) }
{
    if are_text(words) { read(words) } else { None }
}

fn read(words: &[Word]) -> Option<Command<'_>>
    ensures { MatchOption result (reading.read words.now ≡ None) (λ command. reading.read words.now ≡ Some (command.object.now, commands.seen command.task)) }
{
    match words {
        [verb, object, rest @ ..] => {
            let object = object.items();
            match task_by(verb.items(), rest) {
                Some(task) => Some(Command { object, task }),
                None => None,
            }
        }
        _ => None,
    }
}

/// The task of a verb and of the words after the object's file.
#[tactic(auto, unfolding(crate::specs::Reading::asked_by))]
fn task_by<'a>(verb: &[u8], rest: &'a [Word]) -> Option<Task<'a>>
    ensures { MatchOption result (reading.asked_by verb.now rest.now ≡ None) (λ task. reading.asked_by verb.now rest.now ≡ Some (commands.seen task)) }
{
    if verb == b"normal".as_slice() {
        normal_in(rest)
    } else if verb == b"replay".as_slice() {
        let schedule = only(rest)?;
        Some(Task::Replay { schedule })
    } else if verb == b"record".as_slice() {
        let schedule = only(rest)?;
        Some(Task::Record { schedule })
    } else if verb == b"audit".as_slice() {
        let file = only(rest)?;
        Some(Task::Audit { file })
    } else if verb == b"check".as_slice() {
        let file = only(rest)?;
        Some(Task::Check { file })
    } else if verb == b"derive".as_slice() {
        let claim = claim_in(rest)?;
        Some(Task::Derive { claim })
    } else if verb == b"example".as_slice() {
        let claim = claim_in(rest)?;
        Some(Task::Example { claim })
    } else if verb == b"tables".as_slice() {
        let replicas = replicas_of(only(rest)?)?;
        Some(Task::Tables { replicas })
    } else if verb == b"bulk".as_slice() {
        let drawing = drawing_in(rest)?;
        Some(Task::Bulk { drawing })
    } else if verb == b"script".as_slice() {
        let drawing = drawing_in(rest)?;
        Some(Task::Script { drawing })
    } else {
        None
    }
}

fn normal_in(rest: &[Word]) -> Option<Task<'_>>
    ensures { MatchOption result (reading.normal_in rest.now ≡ None) (λ task. reading.normal_in rest.now ≡ Some (commands.seen task)) }
{
    match rest {
        [] => Some(Task::Normal),
        _ => None,
    }
}

/// The one word that there is.
fn only(words: &[Word]) -> Option<&[u8]>
    ensures { MatchOption result (reading.only words.now ≡ None) (λ word. reading.only words.now ≡ Some word.now) }
{
    match words {
        [word] => Some(word.items()),
        _ => None,
    }
}

fn claim_in(words: &[Word]) -> Option<NamedClaim>
    ensures { result ≡ reading.claim_in words.now }
{
    match words {
        [kind, m] => NamedClaim::on_one(kind.items(), m.items()),
        [kind, m, n] => NamedClaim::on_two(kind.items(), m.items(), n.items()),
        _ => None,
    }
}

fn drawing_in(words: &[Word]) -> Option<Drawing>
    ensures { result ≡ reading.drawing_in words.now }
{
    match words {
        [seed, replicas, rounds] => drawing_of(seed.items(), replicas.items(), rounds.items()),
        _ => None,
    }
}

#[tactic(auto, unfolding(crate::specs::Reading::drawing_of))]
fn drawing_of(seed: &[u8], replicas: &[u8], rounds: &[u8]) -> Option<Drawing>
    ensures { result ≡ reading.drawing_of seed.now replicas.now rounds.now }
{
    let seed = number(seed)?;
    let replicas = replicas_of(replicas)?;
    let rounds = rounds_of(rounds)?;
    Some(Drawing {
        seed,
        replicas,
        rounds,
    })
}

/// A number of rounds, up to `MAX_ROUNDS`.
#[tactic(auto, unfolding(crate::specs::Reading::rounds_of))]
fn rounds_of(word: &[u8]) -> Option<u32>
    ensures { result ≡ reading.rounds_of word.now }
{
    let n = number(word)?;
    if n <= u64::from(MAX_ROUNDS) {
        Some(n as u32)
    } else {
        None
    }
}

/// A number of replicas, from 1 to `MAX_REPLICAS`.
#[tactic(auto, unfolding(crate::specs::Reading::replicas_of))]
fn replicas_of(word: &[u8]) -> Option<u8>
    ensures { result ≡ reading.replicas_of word.now }
{
    let n = number(word)?;
    if 1 <= n && n <= MAX_REPLICAS as u64 {
        Some(n as u8)
    } else {
        None
    }
}

/// Whether each word is UTF-8.
pub fn are_text(words: &[Word]) -> bool
    ensures { result ≡ list_all is_utf8 words.now }
{
    words.iter().all(|word| is_text(word.items()))
}

fn is_text(word: &[u8]) -> bool
    ensures { result ≡ is_utf8 word.now }
{
    match str::from_utf8(word) {
        Ok(_) => true,
        Err(_) => false,
    }
}
