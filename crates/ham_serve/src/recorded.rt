//! The text of recorded calls.

ghost use Rattle.std.specs.Prelude.{◌≡◌, ◌∷◌, ◌++◌, OnOk};
ghost use Rattle.ham_serve.specs.Recorded.{method_word, call_line, recorded_text};

use ham_lines::method_name;
use ham_lists::{Bytes, NoMemory};
use ham_syntax::{Call, Object};
use ham_text::{push_digits, push_number, push_numbers, push_word};

/// Puts how many calls there are last, and then each on a line of its own.
pub(crate) fn push_recorded(
    text: &mut Bytes,
    object: &Object,
    calls: &[Call],
) -> Result<(), NoMemory>
    ensures { OnOk result (text.new ≡ text.old ++ recorded_text object.now calls.now) }
{
    text.extend(b"record ")?;
    push_digits(text, calls.len() as u64)?;
    for call in calls {
        push_call(text, object, call)?;
    }
    Ok(())
}

/// Puts a call's line last, after the end of the line before it.
fn push_call(text: &mut Bytes, object: &Object, call: &Call) -> Result<(), NoMemory>
    ensures { OnOk result (text.new ≡ text.old ++ call_line object.now call.now) }
{
    text.extend(b"\ncall")?;
    push_number(text, u64::from(call.lane))?;
    push_number(text, u64::from(call.number))?;
    push_method(text, object, call.act.method)?;
    push_numbers(text, call.act.args.items())
}

/// Puts a method's name last, after a space; its number, where the object has no such method.
fn push_method(text: &mut Bytes, object: &Object, method: u8) -> Result<(), NoMemory>
    ensures { OnOk result (text.new ≡ text.old ++ 32 ∷ method_word object.now method) }
{
    if usize::from(method) < object.methods().len() {
        push_word(text, method_name(object, method))
    } else {
        push_number(text, u64::from(method))
    }
}
