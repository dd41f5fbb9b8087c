//! Encodes or decodes a stream of equal frames, again and again, so that it can be timed: `tools/bench` does. Its words
//! are `encode` or `decode`, a kind of frame, the bytes of a piece, and how often. It writes how many bytes were encoded
//! in all, or how many frames were decoded.
#![tactic(auto)]

ghost use Rattle.std.specs.Prelude.{◌≤◌, length};
ghost use Rattle.ham_frame.specs.Spelling.{Fits};

use anyhow::bail;
use ham_frame::{Decoder, Frame, Ruling, encode, fits, put_frame};
use ham_syntax::limits::{MAX_PARAMS, MAX_SLOTS};
use ham_syntax::{Act, Args, Bytes, Call, Items, NoMemory};
use std::alloc::Global;
use std::env;

/// The bytes of a stream, about.
const STREAM_BYTES: usize = 1 << 20;

fn act(args: &[u64]) -> Act
    requires { length args.now ≤ MAX_PARAMS }
{
    Act {
        method: 1,
        args: Args::new(args).unwrap(),
    }
}

fn call(alloc: Global, args: &[u64], deps: &[u32]) -> Result<Frame, NoMemory>
    requires { length args.now ≤ MAX_PARAMS }
{
    Ok(Frame::Call(Call {
        lane: 3,
        number: 777,
        act: act(args),
        deps: Items::of(alloc, deps)?,
    }))
}

/// A frame of the kind; a Bye where there is no such kind.
fn frame_of(alloc: Global, kind: &str) -> Result<Frame, NoMemory> {
    match kind {
        "hello" => Ok(Frame::Hello {
            version: 1,
            digest: [7; 32],
            from: 1,
            of: 3,
        }),
        "call" => call(alloc, &[5], &[]),
        "counted" => call(alloc, &[5, 6], &[1, 2, 3, 4]),
        "longest" => call(alloc, &[1 << 40; MAX_PARAMS], &[777; MAX_SLOTS]),
        "ack" => Ok(Frame::Ack { lane: 3, count: 9 }),
        "request" => Ok(Frame::Request {
            group: 1,
            number: 9,
            act: act(&[5]),
        }),
        "verdict" => Ok(Frame::Verdict {
            group: 1,
            number: 9,
            ruling: Ruling::Applied(9),
        }),
        _ => Ok(Frame::Bye),
    }
}

fn stream_of(alloc: Global, frame: &Frame) -> Result<Bytes, NoMemory>
    requires { Fits frame.now }
{
    let one = encode(alloc, frame)?;
    let mut bytes = Items::new(alloc);
    for _ in 0..STREAM_BYTES / one.items().len().max(1) {
        put_frame(&mut bytes, frame)?;
    }
    Ok(bytes)
}

fn decoded(alloc: Global, bytes: &[u8], piece: usize) -> anyhow::Result<u64> {
    let mut decoder = Decoder::new(alloc);
    let mut count = 0u64;
    for piece in bytes.chunks(piece.max(1)) {
        let mut frames = Items::new(alloc);
        if decoder.total() >= 1 << 60 || piece.len() >= 1 << 60 {
            bail!("the stream is too long");
        }
        decoder.feed(piece, &mut frames)?;
        count = count.wrapping_add(frames.items().len() as u64);
    }
    Ok(count)
}

/// What so many rounds come to.
fn total(
    alloc: Global,
    frame: &Frame,
    what: &str,
    piece: usize,
    rounds: usize,
) -> anyhow::Result<u64>
    requires { Fits frame.now }
{
    let bytes = stream_of(alloc, frame)?;
    let mut total = 0u64;
    for _ in 0..rounds {
        let more = match what {
            "encode" => stream_of(alloc, frame)?.items().len() as u64,
            _ => decoded(alloc, bytes.items(), piece)?,
        };
        total = total.wrapping_add(more);
    }
    Ok(total)
}

fn number(word: &str) -> usize {
    word.parse::<usize>().unwrap_or(0)
}

fn main(rt: HostRuntime) -> anyhow::Result<()> {
    let alloc = rt.alloc();
    let mut words = env::args(&rt)?.skip(1);
    let (Some(what), Some(kind), Some(piece), Some(rounds)) = (
        words.next(),
        words.next(),
        words.next(),
        words.next(),
    ) else {
        bail!("four words are wanted");
    };
    let frame = frame_of(alloc, kind.as_str())?;
    if !fits(&frame) {
        bail!("the frame doesn't fit");
    }
    let piece = number(piece.as_str());
    let total = total(alloc, &frame, what.as_str(), piece, number(rounds.as_str()))?;
    println!(rt; "{total}")?;
    Ok(())
}
