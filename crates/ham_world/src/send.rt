//! Puts the frames of a turn on links.

ghost use Rattle.std.specs.Prelude.{◌≡◌, ◌≢◌, ℕ, ◌≤◌, ◌<◌, ◌∷◌, [], length, OnOk, IfOk};
ghost use Rattle.std.specs.List.{AllByRecursion};
ghost use Rattle.std.specs.Option.{option_copied};
ghost use Rattle.ham_frame.specs.declared.frame.Frame.{Frame};
ghost use Rattle.ham_frame.specs.declared.frame.Frame.TheVariants as frames;
ghost use Rattle.ham_frame.specs.Spelling.{spelling};
ghost use Rattle.ham_site.specs.Outs.{calls_to, most_frames};
ghost use Rattle.ham_world.specs.Sending.{Sends, IsOnLink, place_of_link, copy_to, copies, first_but};

use ham_frame::{Frame, put_frame};
use ham_lists::{Bytes, NoMemory};
use ham_site::Outs;
use ham_syntax::Call;
use ham_syntax::limits::MAX_REPLICAS;
use ham_turns::Out;
use ham_wire::Link;

/// Links, and decoders, are kept for as many replicas as there may be, whatever their number is.
pub(crate) const LINKS: usize = MAX_REPLICAS * MAX_REPLICAS;

/// Where the link from one replica to another is kept.
pub(crate) fn place(from: u8, to: u8) -> usize
    requires from { (1 ≤ from) × (from ≤ MAX_REPLICAS) }
    requires to { (1 ≤ to) × (to ≤ MAX_REPLICAS) }
    ensures is { result ≡ place_of_link from to }
    ensures few { result < LINKS }
{
    MAX_REPLICAS * (usize::from(from) - 1) + (usize::from(to) - 1)
}

/// Puts a frame of a replica on its link.
fn send_one(links: &mut Vec<Link>, me: u8, out: &Out) -> Result<(), NoMemory>
    requires me { (1 ≤ me) × (me ≤ MAX_REPLICAS) }
    requires on { IsOnLink out.now }
    requires links { LINKS ≤ length links.old.items }
    ensures links { OnOk result (Sends links.old.items links.new.items me (out.now ∷ [])) }
    ensures length { length links.new.items ≡ length links.old.items }
{
    let link = &mut links[place(me, out.to)];
    link.put(&out.frame)
}

/// Puts frames of a replica on its links, in order.
fn send_all(links: &mut Vec<Link>, me: u8, outs: &[Out]) -> Result<(), NoMemory>
    requires me { (1 ≤ me) × (me ≤ MAX_REPLICAS) }
    requires on { AllByRecursion IsOnLink outs.now }
    requires links { LINKS ≤ length links.old.items }
    ensures links { OnOk result (Sends links.old.items links.new.items me outs.now) }
    ensures length { length links.new.items ≡ length links.old.items }
{
    for out in outs {
        send_one(links, me, out)?;
    }
    Ok(())
}

/// Puts a spelled frame on the link to a replica, but none where it is this one. It answers how many were put.
fn send_copy(links: &mut Vec<Link>, me: u8, by: u8, to: u8, spelled: &[u8]) -> Result<u32, NoMemory>
    requires me { (1 ≤ me) × (me ≤ MAX_REPLICAS) }
    requires some { 1 ≤ to }
    requires few { to ≢ by → to ≤ MAX_REPLICAS }
    requires links { LINKS ≤ length links.old.items }
    ensures links { OnOk result ((f : Frame) → spelled.now ≡ spelling f
        → Sends links.old.items links.new.items me (copy_to by f to)) }
    ensures length { length links.new.items ≡ length links.old.items }
    ensures count { IfOk result (λ n. (f : Frame) → n ≡ length (copy_to by f to)) }
    ensures one { IfOk result (λ n. n ≤ 1) }
{
    if to == by {
        return Ok(0);
    }
    let link = &mut links[place(me, to)];
    match link.push(spelled) {
        Ok(()) => Ok(1),
        Err(why) => Err(why),
    }
}

/// Puts a spelled frame on the link to each replica but this one.
fn send_copies(
    links: &mut Vec<Link>,
    me: u8,
    by: u8,
    replicas: u8,
    spelled: &[u8],
) -> Result<u32, NoMemory>
    requires me { (1 ≤ me) × (me ≤ MAX_REPLICAS) }
    requires few { (q : ℕ) → 1 ≤ q → q ≤ replicas → q ≢ by → q ≤ MAX_REPLICAS }
    requires links { LINKS ≤ length links.old.items }
    ensures links { OnOk result ((f : Frame) → spelled.now ≡ spelling f
        → Sends links.old.items links.new.items me (copies by f replicas)) }
    ensures length { length links.new.items ≡ length links.old.items }
    ensures count { IfOk result (λ n. (f : Frame) → n ≡ length (copies by f replicas)) }
{
    let mut count = 0;
    for before in 0..replicas {
        count += send_copy(links, me, by, before + 1, spelled)?;
    }
    Ok(count)
}

/// The first replica that is another.
fn first_peer(by: u8) -> u8
    ensures { result ≡ first_but by }
{
    if by == 1 { 2 } else { 1 }
}

/// Puts a decided call on the link to each peer. It is spelled once.
fn send_call(
    links: &mut Vec<Link>,
    spelled: &mut Bytes,
    me: u8,
    by: u8,
    replicas: u8,
    call: &Call,
) -> Result<u32, NoMemory>
    requires me { (1 ≤ me) × (me ≤ MAX_REPLICAS) }
    requires on { AllByRecursion IsOnLink (copies by (frames.Call call.now) replicas) }
    requires links { LINKS ≤ length links.old.items }
    ensures links { OnOk result (Sends links.old.items links.new.items me (copies by (frames.Call call.now) replicas)) }
    ensures length { length links.new.items ≡ length links.old.items }
    ensures count { IfOk result (λ n. n ≡ length (copies by (frames.Call call.now) replicas)) }
{
    if first_peer(by) > replicas {
        return Ok(0);
    }
    let frame = Frame::Call(call.copy()?);
    spelled.truncate(0);
    put_frame(spelled, &frame)?;
    send_copies(links, me, by, replicas, spelled.items())
}

/// The same of what may be no call.
fn send_decided(
    links: &mut Vec<Link>,
    spelled: &mut Bytes,
    me: u8,
    by: u8,
    replicas: u8,
    call: Option<&Call>,
) -> Result<u32, NoMemory>
    requires me { (1 ≤ me) × (me ≤ MAX_REPLICAS) }
    requires on { AllByRecursion IsOnLink (calls_to by replicas (option_copied call)) }
    requires links { LINKS ≤ length links.old.items }
    ensures links { OnOk result (Sends links.old.items links.new.items me (calls_to by replicas (option_copied call.entry))) }
    ensures length { length links.new.items ≡ length links.old.items }
    ensures count { IfOk result (λ n. n ≡ length (calls_to by replicas (option_copied call.entry))) }
{
    match call {
        Some(call) => send_call(links, spelled, me, by, replicas, call),
        None => Ok(0),
    }
}

/// Puts the frames of a turn of a replica on its links, in order, and answers how many there are.
pub(crate) fn send(
    links: &mut Vec<Link>,
    spelled: &mut Bytes,
    me: u8,
    outs: &Outs,
) -> Result<u32, NoMemory>
    requires me { (1 ≤ me) × (me ≤ MAX_REPLICAS) }
    requires on { AllByRecursion IsOnLink outs.now }
    requires few { length outs.now ≤ most_frames }
    requires links { LINKS ≤ length links.old.items }
    ensures links { OnOk result (Sends links.old.items links.new.items me outs.now) }
    ensures length { length links.new.items ≡ length links.old.items }
    ensures count { IfOk result (λ n. n ≡ length outs.now) }
{
    let parts = outs.parts();
    let rest = parts.rest;
    let calls = send_decided(links, spelled, me, parts.me, parts.replicas, parts.call)?;
    send_all(links, me, rest)?;
    Ok(calls + rest.len() as u32)
}
