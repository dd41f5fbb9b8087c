//! Lines, read before any of them is served.

ghost use Rattle.std.specs.Prelude.{◌≡◌, ◌<◌, length, take, IfOk, true, false};
ghost use Rattle.ham_serve.specs.declared.line.TheConstants.{MAX_LINE};
ghost use Rattle.ham_serve.specs.Lines.{HasNoEnd};
ghost use Rattle.ham_serve.specs.Hearing.{Asks, HeardTo};

use crate::line::first_line;
use crate::reply::input_of;
use crate::serve::Said;
use ham_core::Input;
use ham_lines::read_client;
use ham_lists::NoMemory;
use ham_syntax::Object;
use std::alloc::Global;
use std::collections::VecDeque;

/// The most lines of a round, which are entered under one lock, so that nobody keeps it for long.
const MAX_ROUND: usize = 64;

/// Lines of a round: what they enter, what is said of the one that ended them, what stands behind them, and whether no
/// whole line is left there.
#[derive(Drop)]
pub(crate) struct Hearing<'a> {
    pub(crate) inputs: VecDeque<Input>,
    pub(crate) last: Option<Said>,
    pub(crate) rest: &'a [u8],
    pub(crate) done: bool,
}

/// What a line enters, or what is said of one that enters nothing.
fn asked(object: &Object, line: &[u8]) -> Result<Input, Said>
    ensures { Asks object.now line.now result }
{
    match read_client(object, line) {
        Err(fault) => Err(Said::Fault(fault)),
        Ok(line) => match input_of(&line) {
            Some(input) => Ok(input),
            None => Err(Said::Bye),
        },
    }
}

/// Whether an input asks for a list, which takes the longer under the lock the longer it is.
fn is_long(input: &Input) -> bool {
    matches!(input, Input::Rows { .. } | Input::Log | Input::Record)
}

/// Reads whole lines, up to one that enters nothing or asks for a list, and no more than a round may have.
pub(crate) fn hear<'a>(
    alloc: Global,
    object: &Object,
    held: &'a [u8],
) -> Result<Hearing<'a>, NoMemory>
    ensures heard { IfOk result (λ h. HeardTo object.now held.entry.now h.inputs.items h.last h.rest.now) }
    ensures no_end { IfOk result (λ h. h.done ≡ true → HasNoEnd (take MAX_LINE h.rest.now)) }
    ensures shorter { IfOk result (λ h. h.done ≡ false → length h.rest.now < length held.entry.now) }
{
    let mut inputs = VecDeque::new(alloc);
    let mut rest = held;
    while inputs.len() < MAX_ROUND {
        let Some((line, after)) = first_line(rest) else {
            return Ok(Hearing {
                inputs,
                last: None,
                rest,
                done: true,
            });
        };
        rest = after;
        match asked(object, line) {
            Ok(input) => {
                let long = is_long(&input);
                inputs.push_back(input)?;
                if long {
                    return Ok(Hearing {
                        inputs,
                        last: None,
                        rest,
                        done: false,
                    });
                }
            }
            Err(said) => {
                return Ok(Hearing {
                    inputs,
                    last: Some(said),
                    rest,
                    done: false,
                });
            }
        }
    }
    Ok(Hearing {
        inputs,
        last: None,
        rest,
        done: false,
    })
}
