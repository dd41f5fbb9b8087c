//! The bytes of frames.

use crate::samples::{SAMPLES, sample, stream};
use ham_frame::{Frame, fits, put_frame};
use ham_syntax::{Bytes, Items, NoMemory};
use std::alloc::Global;
use std::test::Fail;

/// Puts the frame's bytes last, where it fits.
fn put(bytes: &mut Bytes, frame: &Frame) -> Result<(), NoMemory> {
    if !fits(frame) {
        return Err(NoMemory);
    }
    put_frame(bytes, frame)
}

/// The spellings of the frames, joined.
pub fn joined(alloc: Global, frames: &[Frame]) -> Result<Bytes, NoMemory> {
    let mut bytes = Items::new(alloc);
    for frame in frames {
        put(&mut bytes, frame)?;
    }
    Ok(bytes)
}

/// The spellings of all samples, joined.
fn spelled(alloc: Global) -> Result<Bytes, NoMemory> {
    let mut bytes = Items::new(alloc);
    for place in 0..SAMPLES {
        put(&mut bytes, &sample(alloc, place)?)?;
    }
    Ok(bytes)
}

#[test]
fn frames_of_each_kind_have_their_bytes(rt: HostRuntime) -> Result<(), Fail> {
    let spelled = spelled(rt.alloc())?;
    let stream = stream(rt.alloc())?;
    assert!(rt; spelled.items() == stream.items());
    Ok(())
}
