//! The command `normal OBJECT`.

ghost use Rattle.std.specs.Prelude.{◌≡◌, IfOk};
ghost use Rattle.ham_plain.specs.Written.{plain_of};
ghost use Rattle.ham_cli.specs.Told.{IsTold, IsEnd};

use crate::exit::Exit;
use crate::writes::Answer;
use ham_objfile::print;
use ham_syntax::{NoMemory, Object};
use std::alloc::Global;

/// The object's plain form.
pub(crate) fn plain_form(alloc: Global, object: &Object) -> Result<Answer, NoMemory>
    ensures answer { IfOk result (λ a. IsTold Exit.Done (plain_of object.now) a.exit a.text) }
    ensures end { IfOk result (λ a. IsEnd a.exit) }
{
    let text = print(alloc, object)?;
    Ok(Answer::done(text))
}
