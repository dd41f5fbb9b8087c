//! The command `example OBJECT` with a claim.

ghost use Rattle.std.specs.Prelude.{◌≡◌, Some, IfOk};
ghost use Rattle.ham_cli.specs.ClaimAnswers as answers;
ghost use Rattle.ham_cli.specs.Told.{IsEnd};

use crate::exit::Exit;
use crate::named::NamedClaim;
use crate::refusal::Refusal;
use crate::writes::Answer;
use ham_rules::Claim;
use ham_syntax::{NoMemory, Object};
use ham_witness::{NoExample, example, print_example};
use std::alloc::Global;

/// The first case that shows the claim on the methods of these names false, or why there is none.
pub(crate) fn show_named(
    alloc: Global,
    object: &Object,
    claim: NamedClaim,
) -> Result<Answer, NoMemory>
    ensures answer { IfOk result (λ a. answers.AnswersExample object.now (answers.claim_named object.now claim) a.exit a.text) }
    ensures end { IfOk result (λ a. IsEnd a.exit) }
{
    match claim.find(object) {
        Some(claim) => show(alloc, object, &claim),
        None => Refusal::UnknownName.answer(alloc),
    }
}

fn show(alloc: Global, object: &Object, claim: &Claim) -> Result<Answer, NoMemory>
    ensures answer { IfOk result (λ a. answers.AnswersExample object.now (Some claim.now) a.exit a.text) }
    ensures end { IfOk result (λ a. IsEnd a.exit) }
{
    match example(alloc, object, claim) {
        Ok(case) => {
            let text = print_example(alloc, object, claim, &case)?;
            Ok(Answer::done(text))
        }
        Err(NoExample::Derivable) => Answer::line(alloc, b"derivable\n"),
        Err(NoExample::NotShown) => Answer::line(alloc, b"none shown\n"),
        Err(NoExample::NoMemory) => Err(NoMemory),
    }
}
