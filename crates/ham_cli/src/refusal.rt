//! Why a derivation, or what is asked of one, is refused.

ghost use Rattle.std.specs.Prelude.{◌≡◌, IfOk};
ghost use Rattle.ham_cli.specs.Told as told;

use crate::exit::Exit;
use crate::writes::{Answer, refusal_line};
use ham_syntax::{Bytes, NoMemory};
use std::alloc::Global;

/// Why a derivation, or a claim to derive, is refused.
#[derive(Clone, Copy, Debug, PartialEq, Eq, Drop)]
pub enum Refusal {
    /// A name of the claim is no method of the object.
    UnknownName,
    /// This line, from 1, is the first that is none of a derivation's text.
    BadLine { line: u64 },
    /// This obligation, from 1, is the first whose reason is missing or not admissible.
    Obligation { number: u32 },
}

impl Refusal {
    /// The answer that tells it.
    pub(crate) fn answer(self, alloc: Global) -> Result<Answer, NoMemory>
        ensures answer { IfOk result (λ a. told.IsTold Exit.DerivationRefused (told.derivation_refusal self) a.exit a.text) }
        ensures end { IfOk result (λ a. told.IsEnd a.exit) }
    {
        let exit = Exit::DerivationRefused;
        let text = self.line(alloc)?;
        Ok(Answer { exit, text })
    }

    /// The line that tells it.
    fn line(self, alloc: Global) -> Result<Bytes, NoMemory>
        ensures { IfOk result (λ line. line ≡ told.derivation_refusal self) }
    {
        let why = self.reason(alloc)?;
        refusal_line(alloc, b"derivation refused: ", why.items())
    }

    fn reason(self, alloc: Global) -> Result<Bytes, NoMemory>
        ensures { IfOk result (λ text. text ≡ told.reason_text self) }
    {
        match self {
            Refusal::UnknownName => Bytes::of(alloc, b"unknown name"),
            Refusal::BadLine { line } => Ok(Bytes::from(format!(in alloc;
                "bad line {line}"
            )?.into_bytes())),
            Refusal::Obligation { number } => Ok(Bytes::from(format!(in alloc;
                "obligation {number}"
            )?.into_bytes())),
        }
    }
}
