//! Words of objects, put at the end of a line with a space before each.

ghost use Rattle.std.specs.Prelude.{◌≡◌, ◌∷◌, ◌++◌, OnOk};
ghost use Rattle.std.specs.List.{flat_map};
ghost use Rattle.std.specs.Fmt.{decimal, signed_decimal};
ghost use Rattle.ham_plain.specs.Plain.{keyed_word, kind_word, term_word};
ghost use Rattle.ham_plain.specs.Written as written;

use ham_lists::{Bytes, NoMemory};
use ham_syntax::{Kind, Param, Term};
use ham_text::{push_digits, push_number, push_signed, push_word};

pub(crate) fn push_numbers(text: &mut Bytes, numbers: &[u8]) -> Result<(), NoMemory>
    ensures { OnOk result (text.new ≡ text.old ++ flat_map (λ n. 32 ∷ decimal n) numbers.now) }
{
    for number in numbers {
        push_number(text, u64::from(*number))?;
    }
    Ok(())
}

pub(crate) fn push_limit(text: &mut Bytes, limit: i64) -> Result<(), NoMemory>
    ensures { OnOk result (text.new ≡ text.old ++ 32 ∷ signed_decimal limit) }
{
    text.push(b' ')?;
    push_signed(text, i128::from(limit))
}

pub(crate) fn push_flag(text: &mut Bytes, keyed: bool) -> Result<(), NoMemory>
    ensures { OnOk result (text.new ≡ text.old ++ 32 ∷ keyed_word keyed) }
{
    if keyed {
        push_word(text, b"keyed")
    } else {
        push_word(text, b"plain")
    }
}

pub(crate) fn push_kind(text: &mut Bytes, kind: Kind) -> Result<(), NoMemory>
    ensures { OnOk result (text.new ≡ text.old ++ 32 ∷ kind_word kind) }
{
    match kind {
        Kind::Id => push_word(text, b"id"),
        Kind::Amount => push_word(text, b"amount"),
    }
}

/// The name of the parameter with this number, which a method of a checked object has.
fn param_name(params: &[Param], param: u8) -> &[u8]
    ensures { result.now ≡ written.param_name params.now param }
{
    match params.get(param as usize) {
        Some(param) => param.name.bytes(),
        None => &[],
    }
}

fn push_constant(text: &mut Bytes, number: u64) -> Result<(), NoMemory>
    ensures { OnOk result (text.new ≡ text.old ++ 32 ∷ (35 ∷ decimal number)) }
{
    push_word(text, b"#")?;
    push_digits(text, number)
}

fn push_term(text: &mut Bytes, params: &[Param], term: Term) -> Result<(), NoMemory>
    ensures { OnOk result (text.new ≡ text.old ++ 32 ∷ term_word (written.written_term params.now term)) }
{
    match term {
        Term::Param(param) => push_word(text, param_name(params, param)),
        Term::Const(number) => push_constant(text, number),
        Term::Any => push_word(text, b"_"),
    }
}

pub(crate) fn push_terms(text: &mut Bytes, params: &[Param], terms: &[Term]) -> Result<(), NoMemory>
    ensures { OnOk result (text.new ≡ text.old ++ flat_map (λ t. 32 ∷ term_word (written.written_term params.now t)) terms.now) }
{
    for term in terms {
        push_term(text, params, *term)?;
    }
    Ok(())
}

/// The key, where there is one, and the amount.
pub(crate) fn push_amount(
    text: &mut Bytes,
    params: &[Param],
    key: Option<Term>,
    amount: Term,
) -> Result<(), NoMemory>
    ensures { OnOk result (text.new ≡ text.old ++ flat_map (λ t. 32 ∷ term_word t) (written.written_amount params.now key amount)) }
{
    match key {
        None => push_term(text, params, amount),
        Some(key) => {
            push_term(text, params, key)?;
            push_term(text, params, amount)
        }
    }
}
