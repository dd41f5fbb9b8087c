//! Frames of each kind and of each ruling, and their bytes.

use ham_frame::{Frame, Ruling};
use ham_syntax::{Act, Args, Bytes, Call, Items, NoMemory};
use std::alloc::Global;

/// How many frames there are.
pub const SAMPLES: u8 = 10;

fn act(method: u8, args: &[u64]) -> Result<Act, NoMemory> {
    match Args::new(args) {
        Some(args) => Ok(Act { method, args }),
        None => Err(NoMemory),
    }
}

fn call(alloc: Global, lane: u8, number: u32, act: Act, counts: &[u32]) -> Result<Frame, NoMemory> {
    let deps = Items::of(alloc, counts)?;
    Ok(Frame::Call(Call {
        lane,
        number,
        act,
        deps,
    }))
}

fn verdict(group: u8, number: u32, ruling: Ruling) -> Frame {
    Frame::Verdict {
        group,
        number,
        ruling,
    }
}

/// A Hello with a digest of one byte again and again.
fn hello() -> Frame {
    Frame::Hello {
        version: 1,
        digest: [7; 32],
        from: 2,
        of: 8,
    }
}

fn request() -> Result<Frame, NoMemory> {
    Ok(Frame::Request {
        group: 31,
        number: 513,
        act: act(1, &[4, u64::MAX])?,
    })
}

/// The frame of this place.
pub fn sample(alloc: Global, place: u8) -> Result<Frame, NoMemory> {
    match place {
        0 => Ok(hello()),
        1 => call(alloc, 0, 1, act(1, &[3])?, &[1, 0, 65_536]),
        2 => call(alloc, 255, 65_536, act(31, &[])?, &[]),
        3 => Ok(Frame::Ack { lane: 1, count: 1 }),
        4 => request(),
        5 => Ok(verdict(0, 1, Ruling::Applied(65_536))),
        6 => Ok(verdict(31, 65_536, Ruling::Guard(7))),
        7 => Ok(verdict(0, 2, Ruling::Invariant(31))),
        8 => Ok(verdict(0, 3, Ruling::Full)),
        _ => Ok(Frame::Bye),
    }
}

fn hello_bytes(bytes: &mut Bytes) -> Result<(), NoMemory> {
    bytes.extend(b"\x01\x01")?;
    bytes.extend(&[7; 32])?;
    bytes.extend(b"\x02\x08")
}

fn call_bytes(bytes: &mut Bytes) -> Result<(), NoMemory> {
    bytes.extend(b"\x02\x00\x00\x00\x00\x01\x01\x01")?;
    bytes.extend(b"\x00\x00\x00\x00\x00\x00\x00\x03\x00\x03")?;
    bytes.extend(b"\x00\x00\x00\x01\x00\x00\x00\x00\x00\x01\x00\x00")?;
    bytes.extend(b"\x02\xff\x00\x01\x00\x00\x1f\x00\x00\x00")
}

fn request_bytes(bytes: &mut Bytes) -> Result<(), NoMemory> {
    bytes.extend(b"\x03\x01\x00\x00\x00\x01")?;
    bytes.extend(b"\x04\x1f\x00\x00\x02\x01\x01\x02")?;
    bytes.extend(b"\x00\x00\x00\x00\x00\x00\x00\x04")?;
    bytes.extend(b"\xff\xff\xff\xff\xff\xff\xff\xff")
}

fn verdict_bytes(bytes: &mut Bytes) -> Result<(), NoMemory> {
    bytes.extend(b"\x05\x00\x00\x00\x00\x01\x00\x00\x01\x00\x00")?;
    bytes.extend(b"\x05\x1f\x00\x01\x00\x00\x01\x07")?;
    bytes.extend(b"\x05\x00\x00\x00\x00\x02\x02\x1f")?;
    bytes.extend(b"\x05\x00\x00\x00\x00\x03\x03")
}

/// The bytes of all of them, written by hand.
pub fn stream(alloc: Global) -> Result<Bytes, NoMemory> {
    let mut bytes = Items::new(alloc);
    hello_bytes(&mut bytes)?;
    call_bytes(&mut bytes)?;
    request_bytes(&mut bytes)?;
    verdict_bytes(&mut bytes)?;
    bytes.push(6)?;
    Ok(bytes)
}
