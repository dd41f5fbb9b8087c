//! What written lines mean of an object: numbers in place of names.

ghost use Rattle.std.specs.Prelude.{◌≡◌};
ghost use Rattle.ham_grammar.specs.Meaning as meaning;

use crate::line::{Line, Query};
use crate::written::Written;
use ham_lines::{LineFault, NamedAct, NamedCounter};
use ham_syntax::{Name, Object};
use ham_turns::Event;

impl Written {
    /// The line that is meant, or the first thing that is wrong.
    #[tactic(auto, unfolding(crate::specs::Meaning::meant))]
    pub(crate) fn meant(self, object: &Object) -> Result<Line, LineFault>
        ensures { result ≡ meaning.meant object.now self }
    {
        match self {
            Written::Replicas(count) => Ok(Line::Replicas(count)),
            Written::Issue { replica, act } => issue(object, replica, &act),
            Written::Show { replica, counter } => show(object, replica, &counter),
            Written::Rows { replica, relation } => rows(object, replica, &relation),
            Written::Deliver { from, to, frame } => {
                Ok(Line::Act(Event::Deliver { from, to, frame }))
            }
            Written::Pieces {
                from,
                to,
                first,
                last,
                cuts,
            } => Ok(Line::Act(Event::Pieces {
                from,
                to,
                first,
                last,
                cuts,
            })),
            Written::Torn {
                from,
                to,
                frame,
                bytes,
            } => Ok(Line::Act(Event::Torn {
                from,
                to,
                frame,
                bytes,
            })),
            Written::Tick { replica } => Ok(Line::Act(Event::Tick { replica })),
            Written::Log { replica } => Ok(Line::Ask(Query::Log { replica })),
            Written::Verdict {
                replica,
                group,
                number,
            } => Ok(Line::Ask(Query::Verdict {
                replica,
                group,
                number,
            })),
            Written::Sent { from, to } => Ok(Line::Ask(Query::Sent { from, to })),
            Written::Frame { from, to, frame } => {
                Ok(Line::Ask(Query::Frame { from, to, frame }))
            }
            Written::Compare { one, other } => Ok(Line::Ask(Query::Compare { one, other })),
        }
    }
}

fn issue(object: &Object, replica: u64, act: &NamedAct) -> Result<Line, LineFault>
    ensures { result ≡ meaning.issue_meant object.now replica act.now }
{
    match act.meant(object) {
        Some(act) => Ok(Line::Act(Event::Issue { replica, act })),
        None => Err(LineFault::UnknownName),
    }
}

fn show(object: &Object, replica: u64, counter: &NamedCounter) -> Result<Line, LineFault>
    ensures { result ≡ meaning.show_meant object.now replica counter.now }
{
    match counter.meant(object) {
        Ok((counter, key)) => Ok(Line::Ask(Query::Show {
            replica,
            counter,
            key,
        })),
        Err(fault) => Err(fault),
    }
}

fn rows(object: &Object, replica: u64, relation: &Name) -> Result<Line, LineFault>
    ensures { result ≡ meaning.rows_meant object.now replica relation.now }
{
    match object.relation_named(relation) {
        Some(relation) => Ok(Line::Ask(Query::Rows { replica, relation })),
        None => Err(LineFault::UnknownName),
    }
}
