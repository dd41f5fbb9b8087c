//! Lines in their canonical spelling: single spaces, and none at the ends.

ghost use Rattle.std.specs.Prelude.{◌≡◌, ◌<◌, ◌^◌, [], ◌∷◌, length, map, Ok, IfOk};
ghost use Rattle.std.specs.Fmt.{decimal};
ghost use Rattle.ham_text.specs.Numbers.{AreNumbers};
ghost use Rattle.ham_text.specs.Written.{joined};
ghost use Rattle.ham_grammar.specs.Lines as lines;
ghost use Rattle.ham_grammar.specs.Computed.{read_of};

use crate::line::{Line, Query};
use ham_lines::{counter_name, is_keyed, method_name, relation_name};
use ham_lists::{Bytes, Items, NoMemory};
use ham_syntax::{Act, Object};
use ham_text::{push_number, push_numbers, push_word};
use ham_turns::Event;
use std::alloc::Global;

/// The line's text: its words, a space between each two. Read again, it gives the line.
pub fn print_line(alloc: Global, object: &Object, line: &Line) -> Result<Bytes, NoMemory>
    requires { lines.IsPrintable object.now line.now }
    ensures text { IfOk result (λ bytes. bytes ≡ lines.printed object.now line.now) }
    ensures spells { IfOk result (λ bytes. lines.Spells object.now line.now bytes) }
    ensures read { IfOk result (λ bytes. read_of object.now bytes ≡ Ok line.now) }
{
    // The law on what is read back is about checked objects, which this one is.
    let _checked = object.methods();
    printed(alloc, object, line)
}

#[tactic(auto, unfolding(crate::specs::Lines::printed))]
fn printed(alloc: Global, object: &Object, line: &Line) -> Result<Bytes, NoMemory>
    requires { lines.IsPrintable object.now line.now }
    ensures text { IfOk result (λ bytes. bytes ≡ lines.printed object.now line.now) }
    ensures spells { IfOk result (λ bytes. lines.Spells object.now line.now bytes) }
{
    match line {
        Line::Replicas(count) => numbers_line(alloc, b"replicas", &[u64::from(*count)]),
        Line::Act(event) => event_line(alloc, object, event),
        Line::Ask(query) => query_line(alloc, object, query),
    }
}

fn event_line(alloc: Global, object: &Object, event: &Event) -> Result<Bytes, NoMemory>
    requires { lines.IsPrintableEvent object.now event.now }
    ensures text { IfOk result (λ bytes. bytes ≡ joined (lines.written_words (lines.event_written object.now event.now))) }
    ensures written { IfOk result (λ bytes. lines.IsWritten (lines.event_written object.now event.now)) }
{
    match event {
        Event::Issue { replica, act } => issue_line(alloc, object, *replica, act),
        Event::Deliver { from, to, frame } => {
            numbers_line(alloc, b"deliver", &[*from, *to, *frame])
        }
        Event::Pieces {
            from,
            to,
            first,
            last,
            cuts,
        } => {
            let mut text = numbers_line(alloc, b"pieces", &[*from, *to, *first, *last])?;
            push_numbers(&mut text, cuts.items())?;
            Ok(text)
        }
        Event::Torn {
            from,
            to,
            frame,
            bytes,
        } => numbers_line(alloc, b"torn", &[*from, *to, *frame, *bytes]),
        Event::Tick { replica } => numbers_line(alloc, b"tick", &[*replica]),
    }
}

fn query_line(alloc: Global, object: &Object, query: &Query) -> Result<Bytes, NoMemory>
    requires { lines.IsPrintableQuery object.now query.now }
    ensures text { IfOk result (λ bytes. bytes ≡ joined (lines.written_words (lines.query_written object.now query.now))) }
    ensures written { IfOk result (λ bytes. lines.IsWritten (lines.query_written object.now query.now)) }
{
    match *query {
        Query::Show {
            replica,
            counter,
            key,
        } => show_line(alloc, object, replica, counter, key),
        Query::Rows { replica, relation } => {
            named_line(alloc, b"rows", replica, relation_name(object, relation))
        }
        Query::Log { replica } => numbers_line(alloc, b"log", &[replica]),
        Query::Verdict {
            replica,
            group,
            number,
        } => numbers_line(alloc, b"verdict", &[replica, group, number]),
        Query::Sent { from, to } => numbers_line(alloc, b"sent", &[from, to]),
        Query::Frame { from, to, frame } => numbers_line(alloc, b"frame", &[from, to, frame]),
        Query::Compare { one, other } => numbers_line(alloc, b"compare", &[one, other]),
    }
}

fn issue_line(alloc: Global, object: &Object, replica: u64, act: &Act) -> Result<Bytes, NoMemory>
    requires { act.now.method < length object.now.methods }
    ensures text { IfOk result (λ bytes. bytes ≡ joined (lines.written_words (lines.issued object.now replica act.now))) }
    ensures written { IfOk result (λ bytes. lines.IsWritten (lines.issued object.now replica act.now)) }
{
    let name = method_name(object, act.method);
    let mut text = named_line(alloc, b"issue", replica, name)?;
    push_numbers(&mut text, act.args.items())?;
    Ok(text)
}

fn show_line(
    alloc: Global,
    object: &Object,
    replica: u64,
    counter: u8,
    key: u64,
) -> Result<Bytes, NoMemory>
    requires { counter < length object.now.counters }
    ensures text { IfOk result (λ bytes. bytes ≡ joined (lines.written_words (lines.shown object.now replica counter key))) }
    ensures written { IfOk result (λ bytes. lines.IsWritten (lines.shown object.now replica counter key)) }
{
    let name = counter_name(object, counter);
    if is_keyed(object, counter) {
        let mut text = named_line(alloc, b"show", replica, name)?;
        push_numbers(&mut text, &[key])?;
        Ok(text)
    } else {
        named_line(alloc, b"show", replica, name)
    }
}

/// A verb and numbers.
fn numbers_line(alloc: Global, verb: &[u8], numbers: &[u64]) -> Result<Bytes, NoMemory>
    ensures text { IfOk result (λ bytes. bytes ≡ joined (verb.now ∷ map decimal numbers.now)) }
    ensures small { IfOk result (λ _. AreNumbers numbers.now) }
{
    let mut text = Items::of(alloc, verb)?;
    push_numbers(&mut text, numbers)?;
    Ok(text)
}

/// A verb, a replica and a name.
fn named_line(alloc: Global, verb: &[u8], replica: u64, name: &[u8]) -> Result<Bytes, NoMemory>
    ensures text { IfOk result (λ bytes. bytes ≡ joined (verb.now ∷ decimal replica ∷ name.now ∷ [])) }
    ensures small { replica < 2 ^ 64 }
{
    let mut text = Items::of(alloc, verb)?;
    push_number(&mut text, replica)?;
    push_word(&mut text, name)?;
    Ok(text)
}
