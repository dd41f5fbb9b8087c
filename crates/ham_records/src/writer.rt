//! The text of records.

ghost use Rattle.std.specs.Prelude.{◌≡◌, ◌<◌, [], ◌∷◌, ◌++◌, length, OnOk};
ghost use Rattle.std.specs.Fmt.{decimal};
ghost use Rattle.ham_text.specs.Numbers.{AreNumbers};
ghost use Rattle.ham_text.specs.Written.{line_text};
ghost use Rattle.ham_syntax.specs.Objects.{method_name};
ghost use Rattle.ham_records.specs.Texts as texts;

use crate::records::Logged;
use ham_lists::{Bytes, NoMemory};
use ham_syntax::Object;
use ham_text::{push_line_end, push_number, push_numbers, push_word};

/// Puts the first two lines last: the opening, and how many replicas there are.
pub fn push_opening(text: &mut Bytes, replicas: u8) -> Result<(), NoMemory>
    ensures { OnOk result (text.new ≡ text.old ++ (line_text texts.opening_words ++ line_text (texts.replicas_words replicas))) }
{
    text.extend(b"hamsaz audit 1\n")?;
    push_numbered(text, b"replicas", replicas)
}

/// Puts a line of a word and a number last.
fn push_numbered(text: &mut Bytes, word: &[u8], number: u8) -> Result<(), NoMemory>
    ensures { OnOk result (text.new ≡ text.old ++ line_text (word.now ∷ decimal number ∷ [])) }
{
    text.extend(word)?;
    push_number(text, u64::from(number))?;
    push_line_end(text)
}

/// Puts the line last that begins a replica's log.
pub fn push_replica(text: &mut Bytes, replica: u8) -> Result<(), NoMemory>
    ensures { OnOk result (text.new ≡ text.old ++ line_text (texts.replica_words replica)) }
{
    push_numbered(text, b"replica", replica)
}

/// Puts a call's line last.
pub fn push_logged(text: &mut Bytes, object: &Object, logged: &Logged) -> Result<(), NoMemory>
    requires { logged.now.act.method < length object.now.methods }
    ensures text { OnOk result (text.new ≡ text.old ++ line_text (texts.call_words object.now logged.now)) }
    ensures small { OnOk result (AreNumbers logged.now.act.args) }
{
    text.extend(b"call")?;
    push_number(text, u64::from(logged.place.lane))?;
    push_number(text, u64::from(logged.place.number))?;
    push_word(text, name(object, logged.act.method))?;
    push_numbers(text, logged.act.args.items())?;
    push_line_end(text)
}

/// The name of method m.
fn name(object: &Object, m: u8) -> &[u8]
    requires { m < length object.now.methods }
    ensures { result.now ≡ method_name object.now m }
{
    object.methods()[usize::from(m)].name.bytes()
}

/// Puts the last line last.
pub fn push_end(text: &mut Bytes) -> Result<(), NoMemory>
    ensures { OnOk result (text.new ≡ text.old ++ line_text texts.end_words) }
{
    text.extend(b"end\n")
}
