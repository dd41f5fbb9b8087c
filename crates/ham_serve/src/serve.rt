//! Serving a client.

ghost use Rattle.std.specs.Prelude.{◌≡◌, ◌++◌, ◌≤◌, ◌⊎◌, IfOk, IfErr, List, [], ℕ, length, take, vec_capacity};
ghost use Rattle.std.specs.List.{AllByRecursion};
ghost use Rattle.ham_turns.specs.Settings.{setting_of};
ghost use Rattle.ham_journal.specs.Replies.{MayEnter};
ghost use Rattle.ham_bytes.specs.Causes.{Rose};
ghost use Rattle.ham_core.specs.Each.{standing};
ghost use Rattle.ham_links.specs.Links.{Goes, GoesSome};
ghost use Rattle.ham_serve.specs.declared.serve.Went.{Went};
ghost use Rattle.ham_serve.specs.declared.serve.Went.TheVariants as went;
ghost use Rattle.ham_serve.specs.declared.serve.ClientEnd.TheVariants as ends;
ghost use Rattle.ham_serve.specs.declared.line.TheConstants.{MAX_LINE};
ghost use Rattle.ham_serve.specs.Lines.{joined, IsLine, HasNoEnd};
ghost use Rattle.ham_serve.specs.Texts.{way_of};
ghost use Rattle.ham_serve.specs.Hearing.{Answered, way_after};
ghost use Rattle.ham_serve.specs.Talks.{Served, Talk};
ghost use Rattle.ham_serve.specs.Rounds.{Round, Halt, EndsBy, EndOf, Broke};

use crate::hearing::{Hearing, hear};
use crate::line::MAX_LINE;
use crate::reply::{push_replies, push_said};
use ham_core::{Door, Input, Reply};
use ham_lines::LineFault;
use ham_links::{Got, Link, put_whole};
use ham_lists::{Bytes, Items, NoMemory};
use ham_syntax::Object;
use std::alloc::Global;
use std::collections::VecDeque;
use std::sync::Wait;

/// How lines went: on, up to a `quit`, or up to a node that was stopped.
#[derive(Clone, Copy, Debug, PartialEq, Eq)]
pub enum Went {
    On,
    Quit,
    Stopped,
}

/// How serving a client ended.
#[derive(Clone, Copy, Debug, PartialEq, Eq)]
pub enum ClientEnd {
    /// The client said `quit`.
    Quit,
    /// The node stops, or was stopped.
    Stopped,
    /// The link came to its end.
    Closed,
    /// The link failed.
    LinkFault,
    /// A line has more than 4,095 bytes.
    LineTooLong,
    /// Memory ran out.
    NoMemory,
}

/// What is said of a line.
#[derive(Debug, Drop)]
pub enum Said {
    Fault(LineFault),
    Bye,
    Reply(Reply),
}

/// How lines go after a reply.
fn way(reply: &Reply) -> Went
    ensures { result ≡ way_of reply.now }
{
    match reply {
        Reply::Stopped => Went::Stopped,
        Reply::Stopping => Went::Stopped,
        Reply::Issued { .. } => Went::On,
        Reply::NotIssued(_) => Went::On,
        Reply::Delivered { .. } => Went::On,
        Reply::NotDelivered(_) => Went::On,
        Reply::Ticked { .. } => Went::On,
        Reply::Collected(_) => Went::On,
        Reply::Value(_) => Went::On,
        Reply::Rows(_) => Went::On,
        Reply::Asked(_) => Went::On,
        Reply::Log(_) => Went::On,
        Reply::Counts(_) => Went::On,
        Reply::Recorded(_) => Went::On,
        Reply::Full => Went::On,
        Reply::NoMemory => Went::On,
    }
}

/// How lines go after what was said of one that entered nothing.
fn way_after_said(said: &Said) -> Went
    ensures { result ≡ way_after said.now }
{
    match said {
        Said::Fault(_) => Went::On,
        Said::Bye => Went::Quit,
        Said::Reply(reply) => way(reply),
    }
}

/// Enters what lines ask, by one call of the door, and then puts what is said of them last. How they went.
fn serve_round<D: Door>(
    object: &Object,
    door: &mut D,
    inputs: VecDeque<Input>,
    last: Option<Said>,
    room: Vec<Reply>,
    out: &mut Bytes,
) -> Result<Went, NoMemory>
    requires home { D.object door.old ≡ object.now }
    requires may { AllByRecursion (MayEnter (setting_of (D.plan door.old)) (D.me door.old)) inputs.items }
    requires empty { room.items ≡ [] }
    requires room { length inputs.items ≤ vec_capacity room }
    ensures ok { IfOk result (λ w. (text : List ℕ) × (out.new ≡ out.old ++ text)
        × Answered (D.object door.old) (D.plan door.old) (D.me door.old) (standing (D.history door.old) (D.entries door.old) (D.stops door.old) (D.fulls door.old) (D.refusals door.old))
        (standing (D.history door.new) (D.entries door.new) (D.stops door.new) (D.fulls door.new) (D.refusals door.new)) inputs.items last text w) }
    ensures err { IfErr result (λ e. (text : List ℕ) × (w : Went)
        × Answered (D.object door.old) (D.plan door.old) (D.me door.old) (standing (D.history door.old) (D.entries door.old) (D.stops door.old) (D.fulls door.old) (D.refusals door.old))
        (standing (D.history door.new) (D.entries door.new) (D.stops door.new) (D.fulls door.new) (D.refusals door.new)) inputs.items last text w) }
    ensures object { D.object door.new ≡ D.object door.old }
    ensures plan { D.plan door.new ≡ D.plan door.old }
    ensures me { D.me door.new ≡ D.me door.old }
{
    let mut inputs = inputs;
    let mut replies = room;
    let stopped = door.enter_all(&mut inputs, &mut replies);
    push_replies(out, object, &replies)?;
    if stopped {
        return Ok(Went::Stopped);
    }
    let Some(said) = last else {
        return Ok(Went::On);
    };
    let went = way_after_said(&said);
    push_said(out, object, said)?;
    Ok(went)
}

/// Serves each whole line of what is held, up to the last, and gathers the replies: what is left where they went on. The lines
/// of a round are read before the first of them is entered, and their replies are spelled after the last.
#[tactic(auto, using(crate::proofs::Talks::serving_start))]
fn serve_lines<'a, D: Door>(
    alloc: Global,
    object: &Object,
    door: &mut D,
    held: &'a [u8],
    out: &mut Bytes,
) -> Result<(&'a [u8], Went), NoMemory>
    requires home { D.object door.old ≡ object.now }
    ensures talk { IfOk result (λ r. (rest : List ℕ) × Served (D.object door.old) (D.plan door.old) (D.me door.old) (D.history door.old) (D.history door.new) r.1 held.entry.now rest out.old out.new × (r.1 ≡ went.On → rest ≡ r.0.now)) }
    ensures no_end { IfOk result (λ r. r.1 ≡ went.On → HasNoEnd (take MAX_LINE r.0.now)) }
    ensures untold { IfErr result (λ e. (rest : List ℕ) × (all : List ℕ) × (w : Went) × Served (D.object door.old) (D.plan door.old) (D.me door.old) (D.history door.old) (D.history door.new) w held.entry.now rest [] all) }
    ensures stopped { IfOk result (λ r. r.1 ≡ went.Stopped → Rose (D.stops door.old) (D.stops door.new)) }
    ensures later { D.stops door.old ≤ D.stops door.new }
    ensures object { D.object door.new ≡ D.object door.old }
    ensures plan { D.plan door.new ≡ D.plan door.old }
    ensures me { D.me door.new ≡ D.me door.old }
{
    let mut rest = held;
    loop {
        let Hearing {
            inputs,
            last,
            rest: after,
            done,
        } = hear(alloc, object, rest)?;
        let room = Vec::with_capacity(alloc, inputs.len())?;
        let went = serve_round(object, door, inputs, last, room, out)?;
        rest = after;
        if went != Went::On {
            return Ok((rest, went));
        }
        if done {
            return Ok((rest, went));
        }
    }
}

/// Serves the lines that the held bytes have, and puts what is told of them. What is held afterwards.
fn answer<D: Door, K: Link>(
    alloc: Global,
    object: &Object,
    door: &mut D,
    link: &mut K,
    held: &[u8],
) -> Result<(Vec<u8>, Went), ClientEnd>
    requires home { D.object door.old ≡ object.now }
    ensures served { IfOk result (λ r. (lines : List (List ℕ)) × (text : List ℕ) × (rest : List ℕ) × Talk (D.object door.old) (D.plan door.old) (D.me door.old) (D.history door.old) lines (D.history door.new) text r.1
        × (held.now ≡ joined lines ++ rest) × (r.1 ≡ went.On → rest ≡ r.0.items) × Goes (K.sent link.old) (K.sent link.new) text) }
    ensures no_end { IfOk result (λ r. r.1 ≡ went.On → HasNoEnd (take MAX_LINE r.0.items)) }
    ensures broken { IfErr result (λ e. (lines : List (List ℕ)) × (text : List ℕ) × (rest : List ℕ) × (w : Went) × Talk (D.object door.old) (D.plan door.old) (D.me door.old) (D.history door.old) lines (D.history door.new) text w
        × (held.now ≡ joined lines ++ rest) × GoesSome (K.sent link.old) (K.sent link.new) text) }
    ensures fault { IfErr result (λ e. ((e ≡ ends.NoMemory) ⊎ ((e ≡ ends.LinkFault) × Rose (K.faults link.old) (K.faults link.new)))) }
    ensures stopped { IfOk result (λ r. r.1 ≡ went.Stopped → Rose (D.stops door.old) (D.stops door.new)) }
    ensures left { K.left link.new ≡ K.left link.old }
    ensures later { D.stops door.old ≤ D.stops door.new }
    ensures faults { K.faults link.old ≤ K.faults link.new }
    ensures ends { K.ends link.new ≡ K.ends link.old }
    ensures object { D.object door.new ≡ D.object door.old }
    ensures plan { D.plan door.new ≡ D.plan door.old }
    ensures me { D.me door.new ≡ D.me door.old }
{
    let mut out = Items::new(alloc);
    let Ok((rest, went)) = serve_lines(alloc, object, door, held, &mut out) else {
        return Err(ClientEnd::NoMemory);
    };
    let Ok(kept) = Vec::from_slice(alloc, rest) else {
        return Err(ClientEnd::NoMemory);
    };
    match put_whole(link, out.items()) {
        Ok(()) => Ok((kept, went)),
        Err(_) => Err(ClientEnd::LinkFault),
    }
}

/// Takes what came, and serves its lines. What is held afterwards, or how it ended.
fn round<D: Door, K: Link>(
    alloc: Global,
    object: &Object,
    door: &mut D,
    link: &mut K,
    held: Vec<u8>,
) -> Result<Vec<u8>, ClientEnd>
    requires home { D.object door.old ≡ object.now }
    requires held { IsLine held.items }
    ensures on { IfOk result (λ kept. Round (D.object door.old) (D.plan door.old) (D.me door.old) (D.history door.old) (D.history door.new) (K.left link.old) (K.left link.new) (K.sent link.old) (K.sent link.new) held.items kept.items) }
    ensures off { IfErr result (λ e. Halt e (D.object door.old) (D.plan door.old) (D.me door.old) (D.history door.old) (D.history door.new) (K.left link.old) (K.left link.new) (K.sent link.old) (K.sent link.new) held.items) }
    ensures causes { IfErr result (λ e. EndsBy e (K.faults link.old) (K.faults link.new) (K.ends link.old) (K.ends link.new) (D.stops door.old) (D.stops door.new)) }
    ensures later { D.stops door.old ≤ D.stops door.new }
    ensures faults { K.faults link.old ≤ K.faults link.new }
    ensures ends { K.ends link.old ≤ K.ends link.new }
    ensures object { D.object door.new ≡ D.object door.old }
    ensures plan { D.plan door.new ≡ D.plan door.old }
    ensures me { D.me door.new ≡ D.me door.old }
{
    let mut buf = [0u8; MAX_LINE];
    let n = match link.get(&mut buf) {
        Ok(Got::Bytes(n)) => n,
        Ok(Got::Quiet) => {
            if door.stopped() {
                return Err(ClientEnd::Stopped);
            }
            return Ok(held);
        }
        Ok(Got::End) => return Err(ClientEnd::Closed),
        Err(_) => return Err(ClientEnd::LinkFault),
    };
    take_in(alloc, object, door, link, held, &buf[..n])
}

/// Serves the lines of what is held and of what came.
#[tactic(auto, using(crate::proofs::Talks::whole))]
fn take_in<D: Door, K: Link>(
    alloc: Global,
    object: &Object,
    door: &mut D,
    link: &mut K,
    held: Vec<u8>,
    piece: &[u8],
) -> Result<Vec<u8>, ClientEnd>
    requires home { D.object door.old ≡ object.now }
    ensures on { IfOk result (λ kept. (lines : List (List ℕ)) × (text : List ℕ) × Talk (D.object door.old) (D.plan door.old) (D.me door.old) (D.history door.old) lines (D.history door.new) text went.On
        × (held.items ++ piece.now ≡ joined lines ++ kept.items) × Goes (K.sent link.old) (K.sent link.new) text × IsLine kept.items) }
    ensures off { IfErr result (λ e. (lines : List (List ℕ)) × (text : List ℕ) × (rest : List ℕ) × (w : Went) × Talk (D.object door.old) (D.plan door.old) (D.me door.old) (D.history door.old) lines (D.history door.new) text w
        × (held.items ++ piece.now ≡ joined lines ++ rest) × GoesSome (K.sent link.old) (K.sent link.new) text
        × EndOf e (D.object door.old) (D.plan door.old) (D.me door.old) (D.history door.new) (K.left link.new) w rest (Goes (K.sent link.old) (K.sent link.new) text)) }
    ensures causes { IfErr result (λ e. EndsBy e (K.faults link.old) (K.faults link.new) (K.ends link.old) (K.ends link.new) (D.stops door.old) (D.stops door.new)) }
    ensures left { K.left link.new ≡ K.left link.old }
    ensures later { D.stops door.old ≤ D.stops door.new }
    ensures faults { K.faults link.old ≤ K.faults link.new }
    ensures ends { K.ends link.new ≡ K.ends link.old }
    ensures object { D.object door.new ≡ D.object door.old }
    ensures plan { D.plan door.new ≡ D.plan door.old }
    ensures me { D.me door.new ≡ D.me door.old }
{
    let mut all = held;
    if all.extend_from_slice(piece).is_err() {
        return Err(ClientEnd::NoMemory);
    }
    let (kept, went) = match answer(alloc, object, door, link, &all) {
        Ok(went) => went,
        Err(end) => return Err(end),
    };
    match went {
        Went::Quit => Err(ClientEnd::Quit),
        Went::Stopped => Err(ClientEnd::Stopped),
        Went::On => {
            if kept.len() >= MAX_LINE {
                return Err(ClientEnd::LineTooLong);
            }
            Ok(kept)
        }
    }
}

/// Serves a client to its end. Before each get all whole lines that came are served, and their replies are put together.
pub fn serve_client<R: Wait, D: Door, K: Link>(
    rt: &R,
    alloc: Global,
    object: &Object,
    door: &mut D,
    link: &mut K,
) -> ClientEnd
    requires home { D.object door.old ≡ object.now }
    ensures talk { Broke result (D.object door.old) (D.plan door.old) (D.me door.old) (D.history door.old) (D.history door.new) (K.left link.old) (K.left link.new) (K.sent link.old) (K.sent link.new) }
    ensures causes { EndsBy result (K.faults link.old) (K.faults link.new) (K.ends link.old) (K.ends link.new) (D.stops door.old) (D.stops door.new) }
    ensures object { D.object door.new ≡ D.object door.old }
    ensures plan { D.plan door.new ≡ D.plan door.old }
    ensures me { D.me door.new ≡ D.me door.old }
{
    let mut held = Vec::new(alloc);
    for _ in rt.forever() {
        match round(alloc, object, door, link, held) {
            Ok(kept) => held = kept,
            Err(end) => return end,
        }
    }
    unreachable!()
}
