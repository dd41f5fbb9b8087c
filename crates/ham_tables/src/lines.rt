//! Lines of the tables' text.

ghost use Rattle.std.specs.Prelude.{◌≡◌, ◌<◌, ◌∷◌, ◌++◌, [], length, codes, OnOk};
ghost use Rattle.std.specs.Fmt.{decimal};
ghost use Rattle.ham_syntax.specs.Objects.{method_name};
ghost use Rattle.ham_text.specs.Written.{joined, line_text};

use ham_lists::{Bytes, NoMemory};
use ham_syntax::Object;
use ham_text::{push_line_end, push_number, push_word};

/// The name of method m.
fn name(object: &Object, m: u8) -> &[u8]
    requires { m < length object.now.methods }
    ensures { result.now ≡ method_name object.now m }
{
    object.methods()[usize::from(m)].name.bytes()
}

/// Puts a space and the name of method m last.
pub(crate) fn push_name(text: &mut Bytes, object: &Object, m: u8) -> Result<(), NoMemory>
    requires { m < length object.now.methods }
    ensures { OnOk result (text.new ≡ text.old ++ 32 ∷ method_name object.now m) }
{
    push_word(text, name(object, m))
}

/// Puts a space and a number last.
fn push_small(text: &mut Bytes, number: u8) -> Result<(), NoMemory>
    ensures { OnOk result (text.new ≡ text.old ++ 32 ∷ decimal number) }
{
    push_number(text, u64::from(number))
}

/// Puts a line of a word and two methods last.
pub(crate) fn push_pair(
    text: &mut Bytes,
    word: &[u8],
    object: &Object,
    m: u8,
    n: u8,
) -> Result<(), NoMemory>
    requires m_exists { m < length object.now.methods }
    requires n_exists { n < length object.now.methods }
    ensures { OnOk result (text.new ≡ text.old ++ line_text (word.now ∷ method_name object.now m ∷ method_name object.now n ∷ [])) }
{
    text.extend(word)?;
    push_name(text, object, m)?;
    push_name(text, object, n)?;
    push_line_end(text)
}

/// Puts a line of a word and a number last.
pub(crate) fn push_count(text: &mut Bytes, word: &[u8], count: u8) -> Result<(), NoMemory>
    ensures { OnOk result (text.new ≡ text.old ++ line_text (word.now ∷ decimal count ∷ [])) }
{
    text.extend(word)?;
    push_small(text, count)?;
    push_line_end(text)
}

/// Puts a line up to two words with a number each last.
#[tactic(auto, using(crate::proofs::Written::two_numbers))]
pub(crate) fn push_numbers_of(
    text: &mut Bytes,
    first: &[u8],
    one: u8,
    second: &[u8],
    other: u8,
) -> Result<(), NoMemory>
    ensures { OnOk result (text.new ≡ text.old ++ joined (first.now ∷ decimal one ∷ second.now ∷ decimal other ∷ [])) }
{
    text.extend(first)?;
    push_small(text, one)?;
    push_word(text, second)?;
    push_small(text, other)
}

/// Puts the line of a group's lane last.
pub(crate) fn push_group_lane(text: &mut Bytes, group: u8) -> Result<(), NoMemory>
    ensures { OnOk result (text.new ≡ text.old ++ line_text (codes "lane" ∷ decimal group ∷ codes "group" ∷ decimal group ∷ [])) }
{
    push_numbers_of(text, b"lane", group, b"group", group)?;
    push_line_end(text)
}

/// Puts the line of a replica's lane of a free method last.
pub(crate) fn push_own_lane(
    text: &mut Bytes,
    object: &Object,
    lane: u8,
    m: u8,
    replica: u8,
) -> Result<(), NoMemory>
    requires { m < length object.now.methods }
    ensures { OnOk result (text.new ≡ text.old ++ line_text (codes "lane" ∷ decimal lane ∷ method_name object.now m ∷ decimal replica ∷ [])) }
{
    push_numbers_of(text, b"lane", lane, name(object, m), replica)?;
    push_line_end(text)
}
