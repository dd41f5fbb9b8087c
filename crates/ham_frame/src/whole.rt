//! A frame that stands whole at the front of bytes.

ghost use Rattle.std.specs.Prelude.{◌≡◌, ◌≤◌, ◌∷◌, ◌++◌, length, IfOk, IfSome};
ghost use Rattle.std.specs.Int.{bytes_high_first};
ghost use Rattle.ham_frame.specs.Plain.{plain_bytes, act_bytes, args_bytes, deps_bytes, counts_bytes, ruling_bytes};
ghost use Rattle.ham_frame.specs.Decoding.{Begins};

use crate::frame::{Frame, Ruling};
use crate::ranges::fits;
use ham_syntax::limits::{DIGEST_BYTES, MAX_PARAMS};
use ham_syntax::{Act, Args, Call, Deps, Items, NoMemory};
use std::alloc::Global;

/// The frame with which the bytes begin, and the bytes after it. None where it isn't whole, and where a byte of it is
/// one that no frame has there.
pub(crate) fn whole_frame(alloc: Global, bytes: &[u8]) -> Result<Option<(Frame, &[u8])>, NoMemory>
    ensures { IfOk result (λ found. IfSome found (λ whole. Begins whole.0 whole.1.now bytes.now)) }
{
    let Some((frame, rest)) = any_frame(alloc, bytes)? else {
        return Ok(None);
    };
    if !fits(&frame) {
        return Ok(None);
    }
    Ok(Some((frame, rest)))
}

/// The same of a frame whose fields may be out of their ranges.
fn any_frame(alloc: Global, bytes: &[u8]) -> Result<Option<(Frame, &[u8])>, NoMemory>
    ensures { IfOk result (λ found. IfSome found (λ any. bytes.now ≡ plain_bytes any.0 ++ any.1.now)) }
{
    let Some((kind, rest)) = bytes.split_first() else {
        return Ok(None);
    };
    match *kind {
        1 => Ok(hello(rest)),
        2 => call(alloc, rest),
        3 => Ok(ack(rest)),
        4 => Ok(request(rest)),
        5 => Ok(verdict(rest)),
        6 => Ok(Some((Frame::Bye, rest))),
        _ => Ok(None),
    }
}

fn hello(bytes: &[u8]) -> Option<(Frame, &[u8])>
    ensures { IfSome result (λ any. 1 ∷ bytes.now ≡ plain_bytes any.0 ++ any.1.now) }
{
    let (version, rest) = byte(bytes)?;
    let (digest, rest) = rest.split_first_chunk::<DIGEST_BYTES>()?;
    let (from, rest) = byte(rest)?;
    let (of, rest) = byte(rest)?;
    let frame = Frame::Hello {
        version,
        digest: *digest,
        from,
        of,
    };
    Some((frame, rest))
}

fn call(alloc: Global, bytes: &[u8]) -> Result<Option<(Frame, &[u8])>, NoMemory>
    ensures { IfOk result (λ found. IfSome found (λ any. 2 ∷ bytes.now ≡ plain_bytes any.0 ++ any.1.now)) }
{
    let Some((lane, number, rest)) = start(bytes) else {
        return Ok(None);
    };
    let Some((act, rest)) = act(rest) else {
        return Ok(None);
    };
    let Some((deps, rest)) = deps(alloc, rest)? else {
        return Ok(None);
    };
    let call = Call {
        lane,
        number,
        act,
        deps,
    };
    Ok(Some((Frame::Call(call), rest)))
}

fn ack(bytes: &[u8]) -> Option<(Frame, &[u8])>
    ensures { IfSome result (λ any. 3 ∷ bytes.now ≡ plain_bytes any.0 ++ any.1.now) }
{
    let (lane, count, rest) = start(bytes)?;
    Some((Frame::Ack { lane, count }, rest))
}

fn request(bytes: &[u8]) -> Option<(Frame, &[u8])>
    ensures { IfSome result (λ any. 4 ∷ bytes.now ≡ plain_bytes any.0 ++ any.1.now) }
{
    let (group, number, rest) = start(bytes)?;
    let Some((act, rest)) = act(rest) else {
        return None;
    };
    Some((Frame::Request { group, number, act }, rest))
}

fn verdict(bytes: &[u8]) -> Option<(Frame, &[u8])>
    ensures { IfSome result (λ any. 5 ∷ bytes.now ≡ plain_bytes any.0 ++ any.1.now) }
{
    let (group, number, rest) = start(bytes)?;
    let (ruling, rest) = ruling(rest)?;
    let frame = Frame::Verdict {
        group,
        number,
        ruling,
    };
    Some((frame, rest))
}

/// The lane or group, and a number.
fn start(bytes: &[u8]) -> Option<(u8, u32, &[u8])>
    ensures { IfSome result (λ found. bytes.now ≡ found.0 ∷ (bytes_high_first 4 found.1 ++ found.2.now)) }
{
    let (group, rest) = byte(bytes)?;
    let (number, rest) = number(rest)?;
    Some((group, number, rest))
}

fn act(bytes: &[u8]) -> Option<(Act, &[u8])>
    ensures { IfSome result (λ found. bytes.now ≡ act_bytes found.0 ++ found.1.now) }
{
    let (method, rest) = byte(bytes)?;
    let Some((args, rest)) = args(rest) else {
        return None;
    };
    Some((Act { method, args }, rest))
}

fn args(bytes: &[u8]) -> Option<(Args, &[u8])>
    ensures { IfSome result (λ found. bytes.now ≡ length found.0 ∷ (args_bytes found.0 ++ found.1.now)) }
{
    let (count, mut rest) = byte(bytes)?;
    if count as usize > MAX_PARAMS {
        return None;
    }
    let mut args = [0; MAX_PARAMS];
    for i in 0..count as usize {
        let (argument, after) = word(rest)?;
        args[i] = argument;
        rest = after;
    }
    Some((Args::new(&args[..count as usize])?, rest))
}

fn deps(alloc: Global, bytes: &[u8]) -> Result<Option<(Deps, &[u8])>, NoMemory>
    ensures { IfOk result (λ found. IfSome found (λ deps. bytes.now ≡ deps_bytes deps.0 ++ deps.1.now)) }
{
    let Some((count, mut rest)) = short(bytes) else {
        return Ok(None);
    };
    let mut deps = Items::new(alloc);
    for _ in 0..count {
        let Some((dep, after)) = number(rest) else {
            return Ok(None);
        };
        deps.push(dep)?;
        rest = after;
    }
    Ok(Some((deps, rest)))
}

fn ruling(bytes: &[u8]) -> Option<(Ruling, &[u8])>
    ensures { IfSome result (λ found. bytes.now ≡ ruling_bytes found.0 ++ found.1.now) }
{
    let (code, rest) = byte(bytes)?;
    match code {
        0 => {
            let (number, rest) = number(rest)?;
            Some((Ruling::Applied(number), rest))
        }
        1 => {
            let (index, rest) = byte(rest)?;
            Some((Ruling::Guard(index), rest))
        }
        2 => {
            let (index, rest) = byte(rest)?;
            Some((Ruling::Invariant(index), rest))
        }
        3 => Some((Ruling::Full, rest)),
        _ => None,
    }
}

fn byte(bytes: &[u8]) -> Option<(u8, &[u8])>
    ensures { IfSome result (λ found. bytes.now ≡ found.0 ∷ found.1.now) }
{
    let (byte, rest) = bytes.split_first()?;
    Some((*byte, rest))
}

fn short(bytes: &[u8]) -> Option<(u16, &[u8])>
    ensures { IfSome result (λ found. bytes.now ≡ bytes_high_first 2 found.0 ++ found.1.now) }
{
    let (number, rest) = bytes.split_first_chunk::<2>()?;
    Some((u16::from_be_bytes(*number), rest))
}

fn number(bytes: &[u8]) -> Option<(u32, &[u8])>
    ensures { IfSome result (λ found. bytes.now ≡ bytes_high_first 4 found.0 ++ found.1.now) }
{
    let (number, rest) = bytes.split_first_chunk::<4>()?;
    Some((u32::from_be_bytes(*number), rest))
}

fn word(bytes: &[u8]) -> Option<(u64, &[u8])>
    ensures { IfSome result (λ found. bytes.now ≡ bytes_high_first 8 found.0 ++ found.1.now) }
{
    let (number, rest) = bytes.split_first_chunk::<8>()?;
    Some((u64::from_be_bytes(*number), rest))
}
