//! The command `tables OBJECT N`.

ghost use Rattle.std.specs.Prelude.{◌≡◌, IfOk};
ghost use Rattle.ham_cli.specs.Answers.{AnswersTables};
ghost use Rattle.ham_cli.specs.Commands.{AreFew};
ghost use Rattle.ham_cli.specs.Told.{IsEnd};

use crate::exit::Exit;
use crate::writes::Answer;
use ham_syntax::{NoMemory, Object};
use ham_tables::{plan_of, print_tables};
use std::alloc::Global;

/// The tables of the object's derived plan for so many replicas.
pub(crate) fn tabulate(alloc: Global, object: &Object, replicas: u8) -> Result<Answer, NoMemory>
    requires { AreFew replicas }
    ensures answer { IfOk result (λ a. AnswersTables object.now replicas a.exit a.text) }
    ensures end { IfOk result (λ a. IsEnd a.exit) }
{
    let plan = plan_of(object, replicas);
    let text = print_tables(alloc, object, &plan)?;
    Ok(Answer::done(text))
}
