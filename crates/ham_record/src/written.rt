//! What is recorded of a schedule, and written.

ghost use Rattle.std.specs.Prelude.{◌≡◌, ◌≤◌};
ghost use Rattle.ham_bytes.specs.Causes.{Rose};
ghost use Rattle.ham_replay.specs.Replays as replays;
ghost use Rattle.ham_replay.specs.Claims.{ArePlans, settings_of};
ghost use Rattle.ham_replay.specs.Ends.{EndsAs, Writes};
ghost use Rattle.ham_record.specs.Recorded as records;

use crate::logs::logs_text;
use crate::running::{Halt, run};
use ham_audit::laws::runs_have_no_fault;
use ham_bytes::{Sink, SinkFault, put_all};
use ham_lists::Bytes;
use ham_records::laws::records_read_back;
use ham_replay::laws::replays_are_runs;
use ham_replay::{Plans, Refusal, ReplayEnd, refusal_text};
use ham_syntax::Object;
use std::alloc::Global;

/// The text of the logs of the run that the schedule's lines make, or why it isn't run to its end.
pub fn recorded(
    alloc: Global,
    object: &Object,
    plans: &Plans,
    schedule: &[u8],
) -> Result<Bytes, Halt>
    requires { ArePlans object.now plans.now.at }
    ensures { records.IsRecord object.now (settings_of plans.now.at) (replays.played object.now (settings_of plans.now.at) schedule.now) result }
{
    replays_are_runs();
    runs_have_no_fault();
    records_read_back();
    object.methods();
    let world = run(alloc, object, plans, schedule)?;
    Ok(logs_text(alloc, &world)?)
}

/// Writes the text of the logs of the run that the schedule's lines make; of a schedule with a refused line, only its
/// refusal.
pub fn write_logs<K: Sink>(
    alloc: Global,
    object: &Object,
    plans: &Plans,
    schedule: &[u8],
    out: &mut K,
) -> ReplayEnd
    requires { ArePlans object.now plans.now.at }
    ensures ends { EndsAs (replays.played object.now (settings_of plans.now.at) schedule.now) result }
    ensures writes { Writes (K.taken out.old) (K.taken out.new) (records.recorded object.now (settings_of plans.now.at) (replays.played object.now (settings_of plans.now.at) schedule.now)) result }
    ensures accepted { result ≡ ReplayEnd.Done → records.IsAccepted object.now (settings_of plans.now.at) (replays.played object.now (settings_of plans.now.at) schedule.now) }
    ensures later { K.faults out.old ≤ K.faults out.new }
    ensures cause { result ≡ ReplayEnd.WriteFault → Rose (K.faults out.old) (K.faults out.new) }
{
    match recorded(alloc, object, plans, schedule) {
        Ok(text) => match put_all(out, text.items()) {
            Ok(()) => ReplayEnd::Done,
            Err(SinkFault) => ReplayEnd::WriteFault,
        },
        Err(Halt::Refused(refusal)) => write_refusal(alloc, refusal, out),
        Err(Halt::NoMemory) => ReplayEnd::NoMemory,
    }
}

/// Writes the line of a refusal.
fn write_refusal<K: Sink>(alloc: Global, refusal: Refusal, out: &mut K) -> ReplayEnd
    ensures ends { records.EndsRefused refusal result }
    ensures writes { Writes (K.taken out.old) (K.taken out.new) (replays.refusal_text refusal) result }
    ensures later { K.faults out.old ≤ K.faults out.new }
    ensures cause { result ≡ ReplayEnd.WriteFault → Rose (K.faults out.old) (K.faults out.new) }
{
    match refusal_text(alloc, refusal) {
        Ok(text) => match put_all(out, text.as_bytes()) {
            Ok(()) => refused(refusal),
            Err(SinkFault) => ReplayEnd::WriteFault,
        },
        Err(_) => ReplayEnd::NoMemory,
    }
}

fn refused(refusal: Refusal) -> ReplayEnd
    ensures { result ≡ ReplayEnd.Refused refusal.line refusal.why }
{
    let Refusal { line, why } = refusal;
    ReplayEnd::Refused { line, why }
}
