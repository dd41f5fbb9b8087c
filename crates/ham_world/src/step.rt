//! The frames that an event brings.

ghost use Rattle.std.specs.Prelude.{◌≡◌, ◌≢◌, ◌∷◌, [], ℕ, ◌+◌, ◌-◌, ◌≤◌, ◌<◌, ◌^◌, List, length, map, true, IfOk, OnOk, OnErr, Some, slice_get};
ghost use Rattle.std.specs.List.{range_with_len};
ghost use Rattle.ham_frame.specs.declared.frame.Frame.{Frame};
ghost use Rattle.ham_frame.specs.Spelling.{AllFit, spelling};
ghost use Rattle.ham_turns.specs.Settings.{IsReplica};
ghost use Rattle.ham_turns.specs.Words.{numbered};
ghost use Rattle.ham_runs.specs.Runs.{on_link};
ghost use Rattle.ham_runs.specs.Next.Input.{Deliver, Tear};
ghost use Rattle.ham_world.specs.Worlds.{cuts_fit, part_fits, between};
ghost use Rattle.ham_wire.specs.Streams.{IsIdle};
ghost use Rattle.ham_world.specs.Keeping.{AreIdle};
ghost use Rattle.ham_world.specs.Stepping.{IsLinked};
ghost use Rattle.ham_world.specs.Parted.{setting_at, run_at, IsNoted, Agrees, Makes, StopsIn};

use crate::parts::Parts;
use crate::refusal::MAX_STRETCH;
use crate::send::{LINKS, place};
use crate::turn;
use ham_frame::laws::spellings_are_short;
use ham_frame::{Decoder, Frame, Frames};
use ham_lists::{Items, NoMemory};
use ham_syntax::limits::MAX_SENT_FRAMES;
use ham_wire::{Link, decode, feed};
use std::alloc::Global;

/// How many bytes a decoder is fed before a new one takes its place.
const MAX_FED: u64 = 1 << 61;

/// A decoder that was fed much gives way to a new one.
fn renew(alloc: Global, decoder: &mut Decoder)
    requires { IsIdle decoder.old }
    ensures idle { IsIdle decoder.new }
    ensures few { decoder.new.total ≤ 2 ^ 61 }
{
    if decoder.total() > MAX_FED {
        *decoder = Decoder::new(alloc);
    }
}

/// Frames of a link, read back from their bytes through its decoder.
fn read(
    alloc: Global,
    link: &Link,
    decoder: &mut Decoder,
    first: u64,
    last: u64,
    cuts: &[u64],
) -> Result<Frames, NoMemory>
    requires idle { IsIdle decoder.old }
    requires first { 1 ≤ first }
    requires last { last ≤ length link.now }
    requires cuts { (fs : List Frame) × AllFit fs × (link.now ≡ map spelling fs) × (cuts_fit fs first last cuts.now ≡ true) }
    ensures frames { IfOk result (λ frames. (fs : List Frame) → AllFit fs → link.now ≡ map spelling fs
        → frames ≡ between first last fs) }
    ensures idle { OnOk result (IsIdle decoder.new) }
{
    spellings_are_short();
    renew(alloc, decoder);
    let mut frames = Items::new(alloc);
    match decode(
        decoder,
        link.span(first as usize, last as usize),
        cuts,
        &mut frames,
    ) {
        Ok(()) => Ok(frames),
        Err(why) => Err(why),
    }
}

/// The frames of a link from a number on, one turn each.
fn deliver_all(
    parts: &mut Parts,
    at: u8,
    from: u8,
    first: u32,
    frames: &[Frame],
) -> Result<(), NoMemory>
    requires replica { IsReplica (setting_at parts.old) at }
    requires from { IsReplica (setting_at parts.old) from }
    requires other { from ≢ at }
    requires there { (i : ℕ) (f : Frame) → slice_get frames.now i ≡ Some f
        → numbered (on_link (run_at parts.old) from at) (first + i) ≡ Some f }
    requires kept { IsNoted parts.old }
    requires keeps { Agrees parts.old }
    requires sent { parts.old.sent ≤ MAX_SENT_FRAMES }
    requires few { length frames.now ≤ MAX_STRETCH }
    requires small { first ≤ MAX_SENT_FRAMES }
    ensures object { parts.new.object ≡ parts.old.object }
    ensures plan { parts.new.plan ≡ parts.old.plan }
    ensures comes { OnOk result (Makes parts.old parts.new (map (Deliver at from) (range_with_len first (length frames.now)))) }
    ensures halts { OnErr result (StopsIn parts.old parts.new (map (Deliver at from) (range_with_len first (length frames.now)))) }
{
    for (i, frame) in frames.iter().enumerate() {
        match turn::deliver(parts, at, from, first + i as u32, frame) {
            Ok(()) => {}
            Err(why) => return Err(why),
        }
    }
    Ok(())
}

/// Frames of a link, cut at these places, each of them a turn.
pub(crate) fn frames(
    alloc: Global,
    parts: &mut Parts,
    from: u8,
    to: u8,
    first: u64,
    last: u64,
    cuts: &[u64],
) -> Result<(), NoMemory>
    requires linked { IsLinked (setting_at parts.old) from to }
    requires first { 1 ≤ first }
    requires last { last ≤ length (on_link (run_at parts.old) from to) }
    requires cuts { cuts_fit (on_link (run_at parts.old) from to) first last cuts.now ≡ true }
    requires kept { IsNoted parts.old }
    requires keeps { Agrees parts.old }
    requires sent { parts.old.sent ≤ MAX_SENT_FRAMES }
    ensures object { parts.new.object ≡ parts.old.object }
    ensures plan { parts.new.plan ≡ parts.old.plan }
    ensures comes { OnOk result (Makes parts.old parts.new (map (Deliver to from) (range_with_len first (last + 1 - first)))) }
    ensures halts { OnErr result (StopsIn parts.old parts.new (map (Deliver to from) (range_with_len first (last + 1 - first)))) }
{
    let at = place(from, to);
    let frames = match read_at(
        alloc,
        &parts.links,
        &mut parts.decoders,
        at,
        first,
        last,
        cuts,
    ) {
        Ok(frames) => frames,
        Err(why) => return Err(why),
    };
    deliver_all(parts, to, from, first as u32, frames.items())
}

/// Frames of the link that is kept there, read back through its decoder.
fn read_at(
    alloc: Global,
    links: &Vec<Link>,
    decoders: &mut Vec<Decoder>,
    at: usize,
    first: u64,
    last: u64,
    cuts: &[u64],
) -> Result<Frames, NoMemory>
    requires idle { AreIdle decoders.old.items }
    requires at { at < LINKS }
    requires first { 1 ≤ first }
    requires cuts { (fs : List Frame) × AllFit fs × (slice_get links.now.items at ≡ Some (map spelling fs)) × (last ≤ length fs) × (cuts_fit fs first last cuts.now ≡ true) }
    ensures frames { IfOk result (λ frames. (fs : List Frame) → AllFit fs
        → slice_get links.now.items at ≡ Some (map spelling fs) → frames ≡ between first last fs) }
    ensures idle { OnOk result (AreIdle decoders.new.items) }
{
    let link = &links[at];
    let decoder = &mut decoders[at];
    read(alloc, link, decoder, first, last, cuts)
}

/// A part of a frame of a link: the decoder that took it gives way to a new one, and its replica does nothing.
pub(crate) fn tear(
    alloc: Global,
    parts: &mut Parts,
    from: u8,
    to: u8,
    which: u64,
    bytes: u64,
) -> Result<(), NoMemory>
    requires linked { IsLinked (setting_at parts.old) from to }
    requires first { 1 ≤ which }
    requires last { which ≤ length (on_link (run_at parts.old) from to) }
    requires part { part_fits (on_link (run_at parts.old) from to) which bytes ≡ true }
    requires kept { IsNoted parts.old }
    requires keeps { Agrees parts.old }
    requires sent { parts.old.sent ≤ MAX_SENT_FRAMES }
    ensures object { parts.new.object ≡ parts.old.object }
    ensures plan { parts.new.plan ≡ parts.old.plan }
    ensures comes { OnOk result (Makes parts.old parts.new (Tear to from which ∷ [])) }
    ensures halts { OnErr result (StopsIn parts.old parts.new (Tear to from which ∷ [])) }
{
    let at = place(from, to);
    match tear_at(alloc, &parts.links, &mut parts.decoders, at, which, bytes) {
        Ok(()) => {}
        Err(why) => return Err(why),
    }
    match turn::torn(alloc, parts, to, from, which as u32) {
        Ok(()) => Ok(()),
        Err(why) => Err(why),
    }
}

/// The first bytes of a frame are fed, and the decoder is a new one.
fn tear_at(
    alloc: Global,
    links: &Vec<Link>,
    decoders: &mut Vec<Decoder>,
    at: usize,
    which: u64,
    bytes: u64,
) -> Result<(), NoMemory>
    requires idle { AreIdle decoders.old.items }
    requires at { at < LINKS }
    requires first { 1 ≤ which }
    requires part { (fs : List Frame) × AllFit fs × (slice_get links.now.items at ≡ Some (map spelling fs)) × (which ≤ length fs) × (part_fits fs which bytes ≡ true) }
    ensures { OnOk result (AreIdle decoders.new.items) }
{
    let link = &links[at];
    let decoder = &mut decoders[at];
    tear_link(alloc, link, decoder, which, bytes)
}

fn tear_link(
    alloc: Global,
    link: &Link,
    decoder: &mut Decoder,
    which: u64,
    bytes: u64,
) -> Result<(), NoMemory>
    requires idle { IsIdle decoder.old }
    requires first { 1 ≤ which }
    requires last { which ≤ length link.now }
    requires part { (fs : List Frame) × AllFit fs × (link.now ≡ map spelling fs) × (part_fits fs which bytes ≡ true) }
    ensures { OnOk result (IsIdle decoder.new) }
{
    spellings_are_short();
    renew(alloc, decoder);
    let mut frames = Items::new(alloc);
    let frame = link.span(which as usize, which as usize);
    match feed(decoder, &frame[..bytes as usize], &mut frames) {
        Ok(()) => {}
        Err(why) => return Err(why),
    }
    *decoder = Decoder::new(alloc);
    Ok(())
}
