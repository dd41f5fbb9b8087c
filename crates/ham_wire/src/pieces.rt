//! Reads frames back from their bytes, whole or in pieces.

ghost use Rattle.std.specs.Prelude.{◌≡◌, ◌+◌, ◌++◌, ◌≤◌, ◌^◌, length, OnOk, None, true};
ghost use Rattle.ham_frame.specs.Spelling.{IsViable, IsUnfinished};
ghost use Rattle.ham_frame.specs.Decoding.{Reads};
ghost use Rattle.ham_wire.specs.Cuts.{is_ascending};
ghost use Rattle.ham_wire.specs.Streams.{IsIdle, IsStream, ReadsAll};

use ham_frame::laws::{frames_are_the_only_ones, readings_join, spellings_are_apart};
use ham_frame::{Decoder, FrameFault, Frames};
use ham_lists::NoMemory;

/// Feeds a piece that frames go on with.
pub fn feed(decoder: &mut Decoder, piece: &[u8], frames: &mut Frames) -> Result<(), NoMemory>
    requires room { decoder.old.total + length piece.now ≤ 2 ^ 62 }
    requires working { decoder.old.fault ≡ None }
    requires viable { IsViable (decoder.old.rest ++ piece.now) }
    ensures reads { OnOk result (Reads decoder.old decoder.new frames.old frames.new piece.now) }
    ensures working { OnOk result (decoder.new.fault ≡ None) }
    ensures unfinished { IsUnfinished decoder.new.rest }
{
    match decoder.feed(piece, frames) {
        Ok(()) => Ok(()),
        Err(FrameFault::NoMemory) => Err(NoMemory),
        Err(FrameFault::Bad { .. }) => unreachable!(),
    }
}

/// Feeds the spelling of frames, cut at these places: the frames come out, however they were cut.
pub fn decode(
    decoder: &mut Decoder,
    bytes: &[u8],
    cuts: &[u64],
    frames: &mut Frames,
) -> Result<(), NoMemory>
    requires idle { IsIdle decoder.old }
    requires room { decoder.old.total + length bytes.now ≤ 2 ^ 62 }
    requires cuts { is_ascending 0 cuts.now (length bytes.now) ≡ true }
    requires stream { IsStream bytes.now }
    ensures read { OnOk result (ReadsAll bytes.now frames.old frames.new) }
    ensures idle { OnOk result (IsIdle decoder.new) }
{
    spellings_are_apart();
    frames_are_the_only_ones();
    readings_join();
    let mut start = 0;
    for cut in cuts {
        let end = *cut as usize;
        feed(decoder, &bytes[start..end], frames)?;
        start = end;
    }
    feed(decoder, &bytes[start..], frames)
}
