//! Queries: each reads the run, and is answered by a line, or by the lines of its rows.

ghost use Rattle.std.specs.Prelude.{◌≡◌, ◌&&◌, ◌++◌, true, false, [], IfOk, MatchOption};
ghost use Rattle.ham_turns.specs.Settings.{IsReplica, setting_of};
ghost use Rattle.ham_runs.specs.Runs.{log_of};
ghost use Rattle.ham_runs.specs.Next.{is_replica};
ghost use Rattle.ham_lines.specs.declared.answer.Answer.TheVariants as answers;
ghost use Rattle.ham_grammar.specs.declared.line.Query.TheVariants as queries;
ghost use Rattle.ham_world.specs.Worlds.{Run, are_linked, same_calls, state_at, equal_states};
ghost use Rattle.ham_replay.specs.Replays as replays;
ghost use Rattle.ham_replay.specs.Ends.{IsLineOutcome, asked};

use crate::end::LineRefusal;
use ham_grammar::Query;
use ham_lines::{Answer, push_answer, push_hexadecimal, push_log, push_rows};
use ham_lists::{Bytes, NoMemory};
use ham_text::push_line_end;
use ham_world::World;
use std::alloc::Global;

/// Answers a query.
pub(crate) fn ask(
    alloc: Global,
    world: &World,
    query: Query,
    text: &mut Bytes,
) -> Result<Option<LineRefusal>, NoMemory>
    requires { world.now.stopped ≡ false }
    ensures { IfOk result (λ refused. IsLineOutcome world.now world.now text.old text.new (asked world.now query) refused) }
{
    match query {
        Query::Show {
            replica,
            counter,
            key,
        } => show(world, replica, counter, key, text),
        Query::Rows { replica, relation } => rows(alloc, world, replica, relation, text),
        Query::Log { replica } => log(world, replica, text),
        Query::Verdict {
            replica,
            group,
            number,
        } => verdict(world, replica, group, number, text),
        Query::Sent { from, to } => sent(world, from, to, text),
        Query::Frame { from, to, frame } => frame_bytes(world, from, to, frame, text),
        Query::Compare { one, other } => compare(world, one, other, text),
    }
}

/// The replica with this number; none where there is none.
#[tactic(auto, unfolding(ham_turns::specs::Settings::setting_of))]
fn named(world: &World, replica: u64) -> Option<u8>
    ensures { MatchOption result (is_replica (setting_of world.now.plan) replica ≡ false)
        (λ r. (r ≡ replica) × (is_replica (setting_of world.now.plan) replica ≡ true) × IsReplica (setting_of world.now.plan) r) }
{
    if replica >= 1 && replica <= u64::from(world.replicas()) {
        Some(replica as u8)
    } else {
        None
    }
}

/// The two replicas of a link; none where one isn't there or both are one.
fn linked(world: &World, from: u64, to: u64) -> Option<(u8, u8)>
    ensures { MatchOption result (are_linked (setting_of world.now.plan) from to ≡ false)
        (λ p. (p.0 ≡ from) × (p.1 ≡ to) × (are_linked (setting_of world.now.plan) from to ≡ true) × IsReplica (setting_of world.now.plan) p.0 × IsReplica (setting_of world.now.plan) p.1) }
{
    match (named(world, from), named(world, to)) {
        (Some(f), Some(t)) => { if f == t { None } else { Some((f, t)) } }
        _ => None,
    }
}

/// The value of a counter at a replica.
#[tactic(auto, unfolding(crate::specs::Replays::query_outcome))]
fn show(
    world: &World,
    replica: u64,
    counter: u8,
    key: u64,
    text: &mut Bytes,
) -> Result<Option<LineRefusal>, NoMemory>
    requires { world.now.stopped ≡ false }
    ensures { IfOk result (λ refused. IsLineOutcome world.now world.now text.old text.new (asked world.now (queries.Show replica counter key)) refused) }
{
    let Some(at) = named(world, replica) else {
        return Ok(Some(LineRefusal::NoSuchReplica));
    };
    push_answer(text, &Answer::Value(world.state(at).value(counter, key)))?;
    push_line_end(text)?;
    Ok(None)
}

/// The rows of a relation at a replica.
#[tactic(auto, unfolding(crate::specs::Replays::query_outcome))]
fn rows(
    alloc: Global,
    world: &World,
    replica: u64,
    relation: u8,
    text: &mut Bytes,
) -> Result<Option<LineRefusal>, NoMemory>
    requires { world.now.stopped ≡ false }
    ensures { IfOk result (λ refused. IsLineOutcome world.now world.now text.old text.new (asked world.now (queries.Rows replica relation)) refused) }
{
    let Some(at) = named(world, replica) else {
        return Ok(Some(LineRefusal::NoSuchReplica));
    };
    let list = world.state(at).rows(alloc, relation)?;
    push_rows(text, list.items())?;
    push_line_end(text)?;
    Ok(None)
}

/// The log of a replica.
#[tactic(auto, unfolding(crate::specs::Replays::query_outcome))]
fn log(world: &World, replica: u64, text: &mut Bytes) -> Result<Option<LineRefusal>, NoMemory>
    requires { world.now.stopped ≡ false }
    ensures { IfOk result (λ refused. IsLineOutcome world.now world.now text.old text.new (asked world.now (queries.Log replica)) refused) }
{
    let Some(at) = named(world, replica) else {
        return Ok(Some(LineRefusal::NoSuchReplica));
    };
    push_log(text, world.log(at))?;
    push_line_end(text)?;
    Ok(None)
}

/// What a replica knows of a request.
#[tactic(auto, unfolding(crate::specs::Replays::query_outcome))]
fn verdict(
    world: &World,
    replica: u64,
    group: u64,
    number: u64,
    text: &mut Bytes,
) -> Result<Option<LineRefusal>, NoMemory>
    requires { world.now.stopped ≡ false }
    ensures { IfOk result (λ refused. IsLineOutcome world.now world.now text.old text.new (asked world.now (queries.Verdict replica group number)) refused) }
{
    let Some(at) = named(world, replica) else {
        return Ok(Some(LineRefusal::NoSuchReplica));
    };
    push_answer(text, &Answer::Asked(world.verdict(at, group, number)))?;
    push_line_end(text)?;
    Ok(None)
}

/// How many frames were sent on a link.
#[tactic(auto, unfolding(crate::specs::Replays::query_outcome))]
fn sent(
    world: &World,
    from: u64,
    to: u64,
    text: &mut Bytes,
) -> Result<Option<LineRefusal>, NoMemory>
    requires { world.now.stopped ≡ false }
    ensures { IfOk result (λ refused. IsLineOutcome world.now world.now text.old text.new (asked world.now (queries.Sent from to)) refused) }
{
    let Some((f, t)) = linked(world, from, to) else {
        return Ok(Some(LineRefusal::NoSuchReplica));
    };
    push_answer(text, &Answer::Sent(world.sent(f, t)))?;
    push_line_end(text)?;
    Ok(None)
}

/// The bytes of a sent frame.
#[tactic(auto, unfolding(crate::specs::Replays::query_outcome))]
fn frame_bytes(
    world: &World,
    from: u64,
    to: u64,
    frame: u64,
    text: &mut Bytes,
) -> Result<Option<LineRefusal>, NoMemory>
    requires { world.now.stopped ≡ false }
    ensures { IfOk result (λ refused. IsLineOutcome world.now world.now text.old text.new (asked world.now (queries.Frame from to frame)) refused) }
{
    let Some((f, t)) = linked(world, from, to) else {
        return Ok(Some(LineRefusal::NoSuchReplica));
    };
    let Some(bytes) = world.frame(f, t, frame) else {
        return Ok(Some(LineRefusal::NoSuchFrame));
    };
    push_hexadecimal(text, bytes)?;
    push_line_end(text)?;
    Ok(None)
}

/// Whether the logs of two replicas hold the same calls, and whether their states are equal.
#[tactic(auto, unfolding(crate::specs::Replays::query_outcome))]
fn compare(
    world: &World,
    one: u64,
    other: u64,
    text: &mut Bytes,
) -> Result<Option<LineRefusal>, NoMemory>
    requires { world.now.stopped ≡ false }
    ensures { IfOk result (λ refused. IsLineOutcome world.now world.now text.old text.new (asked world.now (queries.Compare one other)) refused) }
{
    let Some(r) = named(world, one) else {
        return Ok(Some(LineRefusal::NoSuchReplica));
    };
    let Some(s) = named(world, other) else {
        return Ok(Some(LineRefusal::NoSuchReplica));
    };
    push_answer(text, &compared(world, r, s))?;
    push_line_end(text)?;
    Ok(None)
}

/// How two replicas compare.
pub fn compared(world: &World, one: u8, other: u8) -> Answer
    requires going { world.now.stopped ≡ false }
    requires one { IsReplica (setting_of world.now.plan) one }
    requires other { IsReplica (setting_of world.now.plan) other }
    ensures { result ≡ answers.Compared (same_calls (log_of world.now.notes one) (log_of world.now.notes other)) (equal_states (state_at world.now.object (setting_of world.now.plan) world.now.notes one) (state_at world.now.object (setting_of world.now.plan) world.now.notes other)) }
{
    let same = world.same_calls(one, other);
    let equal = are_equal(world, one, other);
    Answer::Compared { same, equal }
}

/// Whether two replicas have equal states.
fn are_equal(world: &World, one: u8, other: u8) -> bool
    requires going { world.now.stopped ≡ false }
    requires one { IsReplica (setting_of world.now.plan) one }
    requires other { IsReplica (setting_of world.now.plan) other }
    ensures { result ≡ equal_states (state_at world.now.object (setting_of world.now.plan) world.now.notes one) (state_at world.now.object (setting_of world.now.plan) world.now.notes other) }
{
    world.state(one).equal(world.state(other))
}
