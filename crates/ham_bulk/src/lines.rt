//! The lines of a script.

ghost use Rattle.std.specs.Prelude.{◌≡◌, ◌+◌, ◌≤◌, ◌<◌, ◌++◌, OnOk, IfOk};
ghost use Rattle.std.specs.List.{flat_map, AllByRecursion};
ghost use Rattle.ham_grammar.specs.declared.line.Line.TheVariants as line_kinds;
ghost use Rattle.ham_grammar.specs.Lines.{IsPrintable, IsPrintableEvent, Spells, printed};
ghost use Rattle.ham_bulk.specs.ScriptTexts as texts;
ghost use Rattle.ham_bulk.specs.Scripted.{AreSpelled};

use ham_grammar::{Line, Query, print_line};
use ham_lists::{Bytes, NoMemory};
use ham_syntax::Object;
use ham_syntax::limits::MAX_REPLICAS;
use ham_text::push_line_end;
use ham_turns::Event;
use std::alloc::Global;

/// Puts a line last.
pub(crate) fn push_line(
    alloc: Global,
    object: &Object,
    text: &mut Bytes,
    line: &Line,
) -> Result<(), NoMemory>
    requires { IsPrintable object.now line.now }
    ensures text { OnOk result (text.new ≡ text.old ++ texts.line_of object.now line.now) }
    ensures spells { OnOk result (Spells object.now line.now (printed object.now line.now)) }
{
    let bytes = print_line(alloc, object, line)?;
    text.extend(bytes.items())?;
    push_line_end(text)
}

/// Puts the lines of events last.
pub(crate) fn push_events(
    alloc: Global,
    object: &Object,
    text: &mut Bytes,
    events: &[Event],
) -> Result<(), NoMemory>
    requires { AllByRecursion (IsPrintableEvent object.now) events.now }
    ensures text { OnOk result (text.new ≡ text.old ++ flat_map (texts.event_line object.now) events.now) }
    ensures spelled { OnOk result (AreSpelled object.now events.now) }
{
    let mut rest = events;
    while let [event, after @ ..] = rest {
        push_event(alloc, object, text, event)?;
        rest = after;
    }
    Ok(())
}

fn push_event(
    alloc: Global,
    object: &Object,
    text: &mut Bytes,
    event: &Event,
) -> Result<(), NoMemory>
    requires { IsPrintableEvent object.now event.now }
    ensures text { OnOk result (text.new ≡ text.old ++ texts.event_line object.now event.now) }
    ensures spells { OnOk result (Spells object.now (line_kinds.Act event.now) (printed object.now (line_kinds.Act event.now))) }
{
    let line = Line::Act(copy(event)?);
    push_line(alloc, object, text, &line)
}

/// An equal event.
fn copy(event: &Event) -> Result<Event, NoMemory>
    ensures { IfOk result (λ copied. copied ≡ event.now) }
{
    match event {
        Event::Issue { replica, act } => Ok(Event::Issue {
            replica: *replica,
            act: *act,
        }),
        Event::Deliver { from, to, frame } => Ok(Event::Deliver {
            from: *from,
            to: *to,
            frame: *frame,
        }),
        Event::Pieces {
            from,
            to,
            first,
            last,
            cuts,
        } => Ok(Event::Pieces {
            from: *from,
            to: *to,
            first: *first,
            last: *last,
            cuts: cuts.copy()?,
        }),
        Event::Torn {
            from,
            to,
            frame,
            bytes,
        } => Ok(Event::Torn {
            from: *from,
            to: *to,
            frame: *frame,
            bytes: *bytes,
        }),
        Event::Tick { replica } => Ok(Event::Tick { replica: *replica }),
    }
}

/// Puts the lines last that compare replica 1 with each other.
pub(crate) fn push_compares(
    alloc: Global,
    object: &Object,
    text: &mut Bytes,
    replicas: u8,
) -> Result<(), NoMemory>
    requires some { 1 ≤ replicas }
    requires few { replicas ≤ MAX_REPLICAS }
    ensures { OnOk result (text.new ≡ text.old ++ texts.compare_lines object.now replicas) }
{
    for other in 2..u64::from(replicas) + 1 {
        push_compare(alloc, object, text, other)?;
    }
    Ok(())
}

fn push_compare(
    alloc: Global,
    object: &Object,
    text: &mut Bytes,
    other: u64,
) -> Result<(), NoMemory>
    ensures { OnOk result (text.new ≡ text.old ++ texts.compare_line object.now other) }
{
    let line = Line::Ask(Query::Compare { one: 1, other });
    push_line(alloc, object, text, &line)
}
