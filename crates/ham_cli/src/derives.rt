//! The command `derive OBJECT` with a claim.

ghost use Rattle.std.specs.Prelude.{◌≡◌, Some, IfOk};
ghost use Rattle.ham_derive.specs.Texts.{HasMethods};
ghost use Rattle.ham_cli.specs.ClaimAnswers as answers;
ghost use Rattle.ham_cli.specs.Told.{IsEnd};

use crate::exit::Exit;
use crate::named::NamedClaim;
use crate::refusal::Refusal;
use crate::writes::Answer;
use ham_analyse::{AnalyseFault, analyse};
use ham_derive::print_text;
use ham_rules::Claim;
use ham_syntax::{Bytes, NoMemory, Object};
use std::alloc::Global;

/// A derivation of the claim on the methods of these names, or the first obligation that has no reason.
pub(crate) fn derive_named(
    alloc: Global,
    object: &Object,
    claim: NamedClaim,
) -> Result<Answer, NoMemory>
    ensures answer { IfOk result (λ a. answers.AnswersDerive object.now (answers.claim_named object.now claim) a.exit a.text) }
    ensures end { IfOk result (λ a. IsEnd a.exit) }
{
    match claim.find(object) {
        Some(claim) => derive(alloc, object, &claim),
        None => Refusal::UnknownName.answer(alloc),
    }
}

fn derive(alloc: Global, object: &Object, claim: &Claim) -> Result<Answer, NoMemory>
    requires { HasMethods object.now claim.now }
    ensures answer { IfOk result (λ a. answers.AnswersDerive object.now (Some claim.now) a.exit a.text) }
    ensures end { IfOk result (λ a. IsEnd a.exit) }
{
    match analyse(alloc, object, claim) {
        Ok(derivation) => {
            let text = print_text(alloc, object, claim, &derivation)?;
            Ok(Answer::done(text))
        }
        Err(AnalyseFault::NotDerivable { obligation }) => {
            let text = none_line(alloc, obligation)?;
            Ok(Answer::done(text))
        }
        Err(AnalyseFault::NoMemory) => Err(NoMemory),
    }
}

fn none_line(alloc: Global, obligation: u32) -> Result<Bytes, NoMemory>
    ensures { IfOk result (λ line. line ≡ answers.none_line obligation) }
{
    let line = format!(in alloc; "none {obligation}\n")?;
    Ok(Bytes::from(line.into_bytes()))
}
