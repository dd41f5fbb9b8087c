//! How an answer is written.

ghost use Rattle.std.specs.Prelude.{◌≡◌, ◌≤◌, IfOk, MatchResult};
ghost use Rattle.ham_cli.specs.Exits.{IsSinkCounted};
ghost use Rattle.ham_cli.specs.Told as told;

use crate::exit::Exit;
use ham_bytes::{Sink, SinkFault, put_all};
use ham_syntax::{Bytes, NoMemory};
use std::alloc::Global;

/// An exit, and the text that comes with it.
#[derive(Drop)]
pub struct Answer {
    pub exit: Exit,
    pub text: Bytes,
}

impl Answer {
    /// The answer to what was asked, which isn't refused.
    pub(crate) fn done(text: Bytes) -> Answer
        ensures exit { result.exit ≡ Exit.Done }
        ensures text { result.text ≡ text }
    {
        let exit = Exit::Done;
        Answer { exit, text }
    }

    /// The same with a text that is always the same.
    pub(crate) fn line(alloc: Global, text: &[u8]) -> Result<Answer, NoMemory>
        ensures { IfOk result (λ a. told.IsTold Exit.Done text.now a.exit a.text) }
    {
        let text = Bytes::of(alloc, text)?;
        Ok(Answer::done(text))
    }
}

/// Puts an answer, where there was memory to make it.
pub(crate) fn put_answer<K: Sink>(out: &mut K, answer: Result<Answer, NoMemory>) -> Exit
    requires { IfOk answer (λ a. told.IsEnd a.exit) }
    ensures ends { MatchResult answer (λ a. told.Puts (K.taken out.old) (K.taken out.new) a.text a.exit result) (λ e. told.RunsOut (K.taken out.old) (K.taken out.new) result) }
    ensures later { K.faults out.old ≤ K.faults out.new }
    ensures counted { IsSinkCounted (K.faults out.old) (K.faults out.new) result }
{
    match answer {
        Ok(answer) => put_text(out, answer.text.items(), answer.exit),
        Err(NoMemory) => Exit::NoMemory,
    }
}

/// Puts a text, with the exit that comes with it.
pub(crate) fn put_text<K: Sink>(out: &mut K, text: &[u8], with: Exit) -> Exit
    requires { told.IsEnd with }
    ensures ends { told.Puts (K.taken out.old) (K.taken out.new) text.now with result }
    ensures later { K.faults out.old ≤ K.faults out.new }
    ensures counted { IsSinkCounted (K.faults out.old) (K.faults out.new) result }
{
    match put_all(out, text) {
        Ok(()) => with,
        Err(SinkFault) => Exit::WriteFault,
    }
}

/// A line of a refusal: what is refused, why, and the line's end.
pub(crate) fn refusal_line(alloc: Global, what: &[u8], why: &[u8]) -> Result<Bytes, NoMemory>
    ensures { IfOk result (λ line. line ≡ told.line_of what.now why.now) }
{
    let mut line = Bytes::of(alloc, what)?;
    line.extend(why)?;
    line.push(b'\n')?;
    Ok(line)
}
