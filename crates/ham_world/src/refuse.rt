//! Which events a world takes.

ghost use Rattle.std.specs.Prelude.{◌≡◌, ◌≢◌, ◌+◌, ◌<◌, ◌≤◌, true, nat_lt, length, map, ℕ, Some, None, List, is_some, if◌then◌else◌};
ghost use Rattle.ham_frame.specs.declared.frame.Frame.{Frame};
ghost use Rattle.ham_frame.specs.Spelling.{spelling};
ghost use Rattle.ham_turns.specs.Settings.{setting_of};
ghost use Rattle.ham_turns.specs.Words.{numbered};
ghost use Rattle.ham_runs.specs.Runs.{Note, on_link};
ghost use Rattle.ham_runs.specs.Next as runs;
ghost use Rattle.ham_world.specs.declared.refusal.StepRefusal.TheVariants as step;
ghost use Rattle.ham_world.specs.Sending.{AreLinks};
ghost use Rattle.ham_wire.specs.Cuts.{is_ascending};
ghost use Rattle.ham_world.specs.Worlds as worlds;

use crate::refusal::{MAX_STRETCH, StepRefusal};
use crate::send::{LINKS, place};
use ham_plan::Plan;
use ham_syntax::limits::{MAX_REPLICAS, MAX_SENT_FRAMES};
use ham_turns::Event;
use ham_wire::Link;

/// Whether a replica has the number.
#[tactic(auto, unfolding(ham_turns::specs::Settings::setting_of))]
fn is_replica(plan: &Plan, number: u64) -> bool
    ensures test { result ≡ runs.is_replica (setting_of plan.now) number }
    ensures within { result ≡ true → (1 ≤ number) × (number ≤ MAX_REPLICAS) }
{
    1 <= number && number <= u64::from(plan.replicas())
}

/// Whether two replicas have the numbers.
fn are_linked(plan: &Plan, from: u64, to: u64) -> bool
    ensures test { result ≡ worlds.are_linked (setting_of plan.now) from to }
    ensures from { result ≡ true → (1 ≤ from) × (from ≤ MAX_REPLICAS) }
    ensures to { result ≡ true → (1 ≤ to) × (to ≤ MAX_REPLICAS) }
{
    let first = is_replica(plan, from);
    let second = is_replica(plan, to);
    first && second && from != to
}

/// Whether a frame was sent.
pub(crate) fn is_sent(link: &Link, number: u64) -> bool
    ensures test { (fs : List Frame) → link.now ≡ map spelling fs → result ≡ is_some (numbered fs number) }
    ensures within { result ≡ true → (1 ≤ number) × (number ≤ length link.now) }
{
    1 <= number && number <= link.len() as u64
}

/// Whether the cuts ascend, above a place and below the end.
fn ascend(cuts: &[u64], end: u64) -> bool
    ensures { result ≡ is_ascending 0 cuts.now end }
{
    let mut last = 0;
    for cut in cuts {
        if *cut <= last || *cut >= end {
            return false;
        }
        last = *cut;
    }
    true
}

/// Whether frames may be taken together, cut at these places.
fn cuts_fit(link: &Link, first: u64, last: u64, cuts: &[u64]) -> bool
    requires first { 1 ≤ first }
    requires last { last ≤ length link.now }
    ensures { (fs : List Frame) → link.now ≡ map spelling fs → result ≡ worlds.cuts_fit fs first last cuts.now }
{
    if last < first || last - first >= MAX_STRETCH {
        return false;
    }
    let bytes = link.span(first as usize, last as usize);
    ascend(cuts, bytes.len() as u64)
}

/// Whether a part of a frame is one: not nothing, and not all.
fn part_fits(link: &Link, number: u64, bytes: u64) -> bool
    requires first { 1 ≤ number }
    requires last { number ≤ length link.now }
    ensures { (fs : List Frame) → link.now ≡ map spelling fs → result ≡ worlds.part_fits fs number bytes }
{
    let frame = link.span(number as usize, number as usize);
    0 < bytes && bytes < frame.len() as u64
}

/// The link from one replica to another.
pub(crate) fn link_at(links: &Vec<Link>, from: u8, to: u8) -> &Link
    requires from { (1 ≤ from) × (from ≤ MAX_REPLICAS) }
    requires to { (1 ≤ to) × (to ≤ MAX_REPLICAS) }
    requires links { LINKS ≤ length links.now.items }
    ensures { (sent : ℕ → ℕ → List Frame) → AreLinks links.now.items sent → result.now ≡ map spelling (sent from to) }
{
    &links[place(from, to)]
}

/// Whether so many frames were sent that no event is taken.
fn full(sent: u64) -> Option<StepRefusal>
    ensures { result ≡ (if nat_lt MAX_SENT_FRAMES sent then Some step.SentFull else None) }
{
    if sent > u64::from(MAX_SENT_FRAMES) {
        Some(StepRefusal::SentFull)
    } else {
        None
    }
}

fn replica_refusal(plan: &Plan, sent: u64, replica: u64) -> Option<StepRefusal>
    ensures { (notes : List Note) → sent ≡ worlds.all_sent notes
        → result ≡ worlds.at_replica_refusal (setting_of plan.now) notes replica }
{
    if is_replica(plan, replica) {
        full(sent)
    } else {
        Some(StepRefusal::NoSuchReplica)
    }
}

fn deliver_refusal(
    plan: &Plan,
    links: &Vec<Link>,
    sent: u64,
    from: u64,
    to: u64,
    frame: u64,
) -> Option<StepRefusal>
    requires links { LINKS ≤ length links.now.items }
    ensures { (notes : List Note) → AreLinks links.now.items (on_link notes) → sent ≡ worlds.all_sent notes
        → result ≡ worlds.deliver_refusal (setting_of plan.now) notes from to frame }
{
    if !are_linked(plan, from, to) {
        return Some(StepRefusal::NoSuchReplica);
    }
    let link = link_at(links, from as u8, to as u8);
    if !is_sent(link, frame) {
        return Some(StepRefusal::NoSuchFrame);
    }
    full(sent)
}

fn pieces_refusal(
    plan: &Plan,
    links: &Vec<Link>,
    sent: u64,
    from: u64,
    to: u64,
    first: u64,
    last: u64,
    cuts: &[u64],
) -> Option<StepRefusal>
    requires links { LINKS ≤ length links.now.items }
    ensures { (notes : List Note) → AreLinks links.now.items (on_link notes) → sent ≡ worlds.all_sent notes
        → result ≡ worlds.pieces_refusal (setting_of plan.now) notes from to first last cuts.now }
{
    if !are_linked(plan, from, to) {
        return Some(StepRefusal::NoSuchReplica);
    }
    let link = link_at(links, from as u8, to as u8);
    if !is_sent(link, first) || !is_sent(link, last) {
        return Some(StepRefusal::NoSuchFrame);
    }
    if !cuts_fit(link, first, last, cuts) {
        return Some(StepRefusal::BadCut);
    }
    full(sent)
}

fn torn_refusal(
    plan: &Plan,
    links: &Vec<Link>,
    sent: u64,
    from: u64,
    to: u64,
    frame: u64,
    bytes: u64,
) -> Option<StepRefusal>
    requires links { LINKS ≤ length links.now.items }
    ensures { (notes : List Note) → AreLinks links.now.items (on_link notes) → sent ≡ worlds.all_sent notes
        → result ≡ worlds.torn_refusal (setting_of plan.now) notes from to frame bytes }
{
    if !are_linked(plan, from, to) {
        return Some(StepRefusal::NoSuchReplica);
    }
    let link = link_at(links, from as u8, to as u8);
    if !is_sent(link, frame) {
        return Some(StepRefusal::NoSuchFrame);
    }
    if !part_fits(link, frame, bytes) {
        return Some(StepRefusal::BadCut);
    }
    full(sent)
}

/// The first reason for which a world itself doesn't take an event.
pub(crate) fn refusal(
    plan: &Plan,
    links: &Vec<Link>,
    sent: u64,
    event: &Event,
) -> Option<StepRefusal>
    requires links { LINKS ≤ length links.now.items }
    ensures { (notes : List Note) → AreLinks links.now.items (on_link notes) → sent ≡ worlds.all_sent notes
        → result ≡ worlds.world_refusal (setting_of plan.now) notes event.now }
{
    match event {
        Event::Issue { replica, .. } => replica_refusal(plan, sent, *replica),
        Event::Deliver { from, to, frame } => deliver_refusal(
            plan, links, sent, *from, *to, *frame,
        ),
        Event::Pieces {
            from,
            to,
            first,
            last,
            cuts,
        } => pieces_refusal(plan, links, sent, *from, *to, *first, *last, cuts.items()),
        Event::Torn {
            from,
            to,
            frame,
            bytes,
        } => torn_refusal(plan, links, sent, *from, *to, *frame, *bytes),
        Event::Tick { replica } => replica_refusal(plan, sent, *replica),
    }
}
