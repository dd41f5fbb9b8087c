//! A stream of all kinds, cut at every byte; bytes that are refused; torn ends.

use crate::frames::joined;
use crate::samples::stream;
use ham_frame::{Decoder, FrameFault, Frames, Torn, Why};
use ham_syntax::{Items, NoMemory};
use std::alloc::Global;
use std::test::Fail;

fn feed(decoder: &mut Decoder, piece: &[u8], frames: &mut Frames) -> Result<(), FrameFault> {
    if decoder.total() > 1000 || piece.len() > 1000 {
        return Err(FrameFault::NoMemory);
    }
    decoder.feed(piece, frames)
}

/// Whether the stream is read in two pieces, of which the first has so many bytes.
fn is_read_cut(alloc: Global, stream: &[u8], cut: usize) -> Result<bool, NoMemory> {
    let mut decoder = Decoder::new(alloc);
    let mut frames = Items::new(alloc);
    let (first, second) = stream.split_at(cut.min(stream.len()));
    let one = feed(&mut decoder, first, &mut frames).is_ok();
    let other = feed(&mut decoder, second, &mut frames).is_ok();
    let back = joined(alloc, frames.items())?;
    Ok(one && other && back.items() == stream)
}

fn is_read_cut_anywhere(alloc: Global) -> Result<bool, NoMemory> {
    let stream = stream(alloc)?;
    for cut in 0..=stream.items().len() {
        if !is_read_cut(alloc, stream.items(), cut)? {
            return Ok(false);
        }
    }
    Ok(true)
}

/// Feeds the bytes one by one, up to one that is refused.
fn feed_one_by_one(
    decoder: &mut Decoder,
    bytes: &[u8],
    frames: &mut Frames,
) -> Result<(), FrameFault> {
    for byte in bytes {
        feed(decoder, &[*byte], frames)?;
    }
    Ok(())
}

/// Whether the byte at this place is refused for this reason, in one piece and byte by byte.
fn is_refused(alloc: Global, bytes: &[u8], at: u64, why: Why) -> bool {
    let bad = Err(FrameFault::Bad { at, why });
    let mut frames = Items::new(alloc);
    let whole = feed(&mut Decoder::new(alloc), bytes, &mut frames);
    let parts = feed_one_by_one(&mut Decoder::new(alloc), bytes, &mut frames);
    whole == bad && parts == bad
}

/// Kinds, versions, replicas, groups, methods.
fn are_first_refused(alloc: Global) -> bool {
    is_refused(alloc, b"\x00", 0, Why::BadKind)
        && is_refused(alloc, b"\x06\x06\x07\x06", 2, Why::BadKind)
        && is_refused(alloc, b"\x01\x02", 1, Why::BadVersion)
        && is_refused(alloc, b"\x04\x20", 1, Why::BadGroup)
        && is_refused(alloc, b"\x02\x00\x00\x00\x00\x01\x20", 6, Why::BadMethod)
}

/// Counts, numbers, codes.
fn are_last_refused(alloc: Global) -> bool {
    is_refused(
        alloc,
        b"\x02\x00\x00\x00\x00\x01\x00\x07",
        7,
        Why::TooManyArgs,
    ) && is_refused(
        alloc,
        b"\x02\x00\x00\x00\x00\x01\x00\x00\x01\x01",
        9,
        Why::TooManyDeps,
    ) && is_refused(alloc, b"\x03\x00\x00\x01\x00\x01", 5, Why::BadNumber)
        && is_refused(alloc, b"\x03\x00\x00\x02\x00\x00", 3, Why::BadNumber)
        && is_refused(alloc, b"\x05\x00\x00\x00\x00\x01\x02\x20", 7, Why::BadCode)
}

/// Whether a Hello of these replicas is refused at this place.
fn is_hello_refused(alloc: Global, from: u8, of: u8, at: u64) -> bool {
    let mut bytes = [7; 36];
    bytes[..2].copy_from_slice(&[1, 1]);
    bytes[34..].copy_from_slice(&[from, of]);
    is_refused(alloc, &bytes, at, Why::BadReplica)
}

/// How a stream of these bytes ends; none where a byte is refused.
fn end_of(alloc: Global, bytes: &[u8]) -> Option<Result<(), Torn>> {
    let mut decoder = Decoder::new(alloc);
    let mut frames = Items::new(alloc);
    if bytes.len() > 1000 {
        return None;
    }
    match decoder.feed(bytes, &mut frames) {
        Ok(()) => Some(decoder.finish()),
        Err(_) => None,
    }
}

fn is_torn(alloc: Global, bytes: &[u8], from: u64) -> bool {
    end_of(alloc, bytes) == Some(Err(Torn { from }))
}

#[test]
fn streams_are_read_up_to_their_faults(rt: HostRuntime) -> Result<(), Fail> {
    let alloc = rt.alloc();
    assert!(rt; is_read_cut_anywhere(alloc)?);
    assert!(rt; are_first_refused(alloc) && are_last_refused(alloc));
    assert!(rt; is_hello_refused(alloc, 0, 1, 34) && is_hello_refused(alloc, 2, 1, 35));
    assert!(rt; is_torn(alloc, b"\x06\x03", 1) && is_torn(alloc, b"\x02\x00\x00\x01\x00\x00", 0));
    Ok(())
}
