//! The command `check OBJECT FILE`.

ghost use Rattle.std.specs.Prelude.{◌≡◌, IfOk};
ghost use Rattle.ham_syntax.specs.Checked.{IsChecked};
ghost use Rattle.ham_cli.specs.CheckAnswers as answers;
ghost use Rattle.ham_cli.specs.Told.{IsEnd};

use crate::exit::Exit;
use crate::refusal::Refusal;
use crate::writes::Answer;
use ham_derive::laws::derivations_read_back;
use ham_derive::{TextFault, check, read_text};
use ham_syntax::{NoMemory, Object};
use std::alloc::Global;

/// Whether the bytes are the text of a good derivation.
pub(crate) fn check_text(alloc: Global, object: &Object, bytes: &[u8]) -> Result<Answer, NoMemory>
    ensures answer { IfOk result (λ a. answers.AnswersCheck object.now bytes.now a.exit a.text) }
    ensures end { IfOk result (λ a. IsEnd a.exit) }
{
    match refusal_of(alloc, object, bytes)? {
        Some(why) => why.answer(alloc),
        None => Answer::line(alloc, b"ok\n"),
    }
}

/// Why the bytes are no text of a good derivation; none where they are.
fn refusal_of(alloc: Global, object: &Object, bytes: &[u8]) -> Result<Option<Refusal>, NoMemory>
    ensures { IfOk result (λ found. answers.IsVerdict object.now bytes.now found) }
{
    // A checked object's derivation texts are of one derivation each, so a refused one isn't good in another reading.
    derivations_read_back();
    is_checked(object);
    let (claim, derivation) = match read_text(alloc, object, bytes) {
        Ok(parts) => parts,
        Err(TextFault::BadLine { line }) => return Ok(Some(Refusal::BadLine { line })),
        Err(TextFault::NoMemory) => return Err(NoMemory),
    };
    match check(object, &claim, &derivation) {
        Ok(()) => Ok(None),
        Err(gap) => {
            let number = gap.obligation;
            Ok(Some(Refusal::Obligation { number }))
        }
    }
}

/// What every object keeps.
fn is_checked(object: &Object)
    ensures { IsChecked object.now }
{
    object.methods();
}
