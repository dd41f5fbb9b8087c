//! What a task answers of an object and of the bytes of the file beside it.

ghost use Rattle.std.specs.Prelude.{◌≡◌};
ghost use Rattle.ham_cli.specs.Commands.{seen, IsInRange};
ghost use Rattle.ham_cli.specs.Exits.{IsSinkCounted};
ghost use Rattle.ham_cli.specs.Sought.{IsAnswerEnd};
ghost use Rattle.ham_cli.specs.Top.{EndsWith};

use crate::audits::audit_text;
use crate::bulks::{put_bulk, put_script};
use crate::checks::check_text;
use crate::command::Task;
use crate::derives::derive_named;
use crate::examples::show_named;
use crate::exit::Exit;
use crate::normals::plain_form;
use crate::records::put_record;
use crate::replays::put_replay;
use crate::tabulates::tabulate;
use crate::writes::put_answer;
use ham_bytes::Sink;
use ham_syntax::Object;
use std::alloc::Global;

/// Writes what the task answers.
pub(crate) fn answer<K: Sink>(
    alloc: Global,
    object: &Object,
    task: &Task<'_>,
    bytes: &[u8],
    out: &mut K,
) -> Exit
    requires { IsInRange (seen task.now) }
    ensures ends { EndsWith object.now (seen task.now) bytes.now (K.taken out.old) (K.taken out.new) result }
    ensures counted { IsSinkCounted (K.faults out.old) (K.faults out.new) result }
    ensures end { IsAnswerEnd (seen task.now) result }
{
    match *task {
        Task::Normal => put_answer(out, plain_form(alloc, object)),
        Task::Replay { .. } => put_replay(alloc, object, bytes, out),
        Task::Record { .. } => put_record(alloc, object, bytes, out),
        Task::Audit { .. } => put_answer(out, audit_text(alloc, object, bytes)),
        Task::Check { .. } => put_answer(out, check_text(alloc, object, bytes)),
        Task::Derive { claim } => put_answer(out, derive_named(alloc, object, claim)),
        Task::Example { claim } => put_answer(out, show_named(alloc, object, claim)),
        Task::Tables { replicas } => put_answer(out, tabulate(alloc, object, replicas)),
        Task::Bulk { drawing } => put_bulk(alloc, object, drawing, out),
        Task::Script { drawing } => put_script(alloc, object, drawing, out),
    }
}
