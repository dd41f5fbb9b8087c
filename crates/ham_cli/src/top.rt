//! The top call.

ghost use Rattle.std.specs.Prelude.{◌≡◌, ◌≤◌, ℕ, true, List, IfSome, IfOk};
ghost use Rattle.ham_bytes.specs.Causes.{Rose};
ghost use Rattle.ham_cli.specs.Commands.{Asked, Asks, AsksNothing, seen, beside, IsInRange};
ghost use Rattle.ham_cli.specs.Exits.{IsCounted, IsSinkCounted};
ghost use Rattle.ham_cli.specs.Sought.{AsksFirst, SeeksOn, SeeksBeside};
ghost use Rattle.ham_cli.specs.Told as told;
ghost use Rattle.ham_cli.specs.Top as runs;

use crate::answer::answer;
use crate::command::{Command, Task, command_of};
use crate::exit::{Exit, exit_of_fetch};
use crate::laws::{
    derived_plans_have_one_setting, schedules_are_played_once, words_ask_one_command,
};
use crate::writes::{Answer, put_answer, put_text, refusal_line};
use ham_bytes::{Shelf, Sink, Words};
use ham_objfile::{FileFault, answered_once, read};
use ham_syntax::limits::MAX_OBJECT_BYTES;
use ham_syntax::{NoMemory, Object};
use std::alloc::Global;

const USAGE: &[u8] =
    b"usage: hamsaz tables OBJECT N; derive OBJECT sc or pr or pl M N; derive OBJECT is M; check OBJECT FILE; normal OBJECT; replay OBJECT SCHEDULE; bulk OBJECT SEED N ROUNDS; script OBJECT SEED N ROUNDS; record OBJECT SCHEDULE; audit OBJECT FILE; example OBJECT sc or pr or pl M N; example OBJECT is M; node OBJECT ME BASES\n";

/// Does what the words after the program's name ask: it fetches the files that they name, and writes the command's
/// text. It waits for nobody and returns.
pub fn run<H: Shelf, K: Sink>(alloc: Global, words: &Words, shelf: &mut H, out: &mut K) -> Exit
    ensures ends { IfSome (H.held shelf.old) (λ files. (object : List ℕ) (asked : Asked) → Asks words.now object asked → runs.Ends object asked files (K.taken out.old) (K.taken out.new) result) }
    ensures complete { IfSome (H.held shelf.old) (λ files. (object : List ℕ) (asked : Asked) → Asks words.now object asked →
        runs.Completes object asked files (Rose (H.faults shelf.old) (H.faults shelf.new)) (Rose (K.faults out.old) (K.faults out.new)) result) }
    ensures sought { (object : List ℕ) (asked : Asked) → Asks words.now object asked → AsksFirst object asked (H.sought shelf.old) (H.sought shelf.new) result }
    ensures usage { AsksNothing words.now → runs.EndsAsUsage (K.taken out.old) (K.taken out.new) result }
    ensures unsought { AsksNothing words.now → H.sought shelf.new ≡ H.sought shelf.old }
    ensures read { result ≡ Exit.ReadFault → Rose (H.faults shelf.old) (H.faults shelf.new) }
    ensures write { result ≡ Exit.WriteFault → Rose (K.faults out.old) (K.faults out.new) }
{
    // An object's file has one meaning, and a schedule or script is played one way: completeness rests on these laws.
    answered_once();
    schedules_are_played_once();
    derived_plans_have_one_setting();
    words_ask_one_command();
    match command_of(words.items()) {
        Some(command) => perform(alloc, &command, shelf, out),
        None => put_usage(out),
    }
}

/// Writes the line that words of no command are answered by.
pub fn put_usage<K: Sink>(out: &mut K) -> Exit
    ensures ends { runs.EndsAsUsage (K.taken out.old) (K.taken out.new) result }
    ensures counted { IsSinkCounted (K.faults out.old) (K.faults out.new) result }
{
    put_text(out, USAGE, Exit::Usage)
}

/// Fetches the object's file, and goes on from its bytes.
fn perform<H: Shelf, K: Sink>(
    alloc: Global,
    command: &Command<'_>,
    shelf: &mut H,
    out: &mut K,
) -> Exit
    requires { IsInRange (seen command.now.task) }
    ensures ends { IfSome (H.held shelf.old) (λ files. runs.Ends command.now.object.now (seen command.now.task) files (K.taken out.old) (K.taken out.new) result) }
    ensures counted { IsCounted (H.faults shelf.old) (H.faults shelf.new) (K.faults out.old) (K.faults out.new) result }
    ensures sought { AsksFirst command.now.object.now (seen command.now.task) (H.sought shelf.old) (H.sought shelf.new) result }
{
    match shelf.fetch(alloc, command.object, MAX_OBJECT_BYTES) {
        Ok(text) => perform_read(alloc, text.items(), &command.task, shelf, out),
        Err(fault) => exit_of_fetch(fault),
    }
}

/// Reads the object, and goes on with it.
fn perform_read<H: Shelf, K: Sink>(
    alloc: Global,
    text: &[u8],
    task: &Task<'_>,
    shelf: &mut H,
    out: &mut K,
) -> Exit
    requires { IsInRange (seen task.now) }
    ensures ends { IfSome (H.held shelf.old) (λ files. runs.EndsRead text.now (seen task.now) files (K.taken out.old) (K.taken out.new) result) }
    ensures later { H.faults shelf.old ≤ H.faults shelf.new }
    ensures counted { IsCounted (H.faults shelf.old) (H.faults shelf.new) (K.faults out.old) (K.faults out.new) result }
    ensures sought { SeeksOn (seen task.now) (H.sought shelf.old) (H.sought shelf.new) result }
{
    match read(alloc, text) {
        Ok(object) => perform_on(alloc, &object, task, shelf, out),
        Err(fault) => refuse_object(alloc, &fault, out),
    }
}

/// Tells why there is no object.
pub fn refuse_object<K: Sink>(alloc: Global, fault: &FileFault, out: &mut K) -> Exit
    ensures want { told.is_no_memory fault.now ≡ true → told.RunsOut (K.taken out.old) (K.taken out.new) result }
    ensures ends { told.PutsMade (K.taken out.old) (K.taken out.new) (told.object_refusal fault.now) Exit.ObjectRefused result }
    ensures counted { IsSinkCounted (K.faults out.old) (K.faults out.new) result }
{
    if is_no_memory(fault) {
        Exit::NoMemory
    } else {
        put_answer(out, object_refusal(alloc, fault))
    }
}

/// Whether it was memory that was wanting.
fn is_no_memory(fault: &FileFault) -> bool
    ensures { result ≡ told.is_no_memory fault.now }
{
    match fault {
        FileFault::NoMemory => true,
        _ => false,
    }
}

fn object_refusal(alloc: Global, fault: &FileFault) -> Result<Answer, NoMemory>
    ensures answer { IfOk result (λ a. told.IsTold Exit.ObjectRefused (told.object_refusal fault.now) a.exit a.text) }
    ensures end { IfOk result (λ a. told.IsEnd a.exit) }
{
    let exit = Exit::ObjectRefused;
    let why = fault.text(alloc)?;
    let text = refusal_line(alloc, b"object refused: ", why.items())?;
    Ok(Answer { exit, text })
}

/// Fetches the file beside the object's, where there is one, and writes what the task answers.
fn perform_on<H: Shelf, K: Sink>(
    alloc: Global,
    object: &Object,
    task: &Task<'_>,
    shelf: &mut H,
    out: &mut K,
) -> Exit
    requires { IsInRange (seen task.now) }
    ensures ends { IfSome (H.held shelf.old) (λ files. runs.EndsOn object.now (seen task.now) files (K.taken out.old) (K.taken out.new) result) }
    ensures later { H.faults shelf.old ≤ H.faults shelf.new }
    ensures counted { IsCounted (H.faults shelf.old) (H.faults shelf.new) (K.faults out.old) (K.faults out.new) result }
    ensures sought { SeeksBeside (seen task.now) (beside (seen task.now)) (H.sought shelf.old) (H.sought shelf.new) result }
{
    let Some(need) = task.need() else {
        return answer(alloc, object, task, b"", out);
    };
    match shelf.fetch(alloc, need.name, need.limit) {
        Ok(bytes) => answer(alloc, object, task, bytes.items(), out),
        Err(fault) => exit_of_fetch(fault),
    }
}
