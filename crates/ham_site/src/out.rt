//! What a turn sends, and what it tells.

ghost use Rattle.std.specs.Prelude.{◌≡◌, ◌++◌, Some, [], ◌∷◌, ◌<◌, IfOk, vec_len, vec_capacity};
ghost use Rattle.std.specs.Option.{option_copied};
ghost use Rattle.ham_site.specs.Outs.{frames_of};

use ham_frame::Frame;
use ham_lists::NoMemory;
use ham_syntax::{Call, Places};
use ham_turns::Out;
use std::alloc::Global;
use std::marker::Model;

/// The frames of a turn, in order. A call that was decided goes to each peer, and first; it is kept once, however many
/// peers there are.
#[derive(Drop)]
pub struct Outs {
    me: u8,
    replicas: u8,
    call: Option<Call>,
    rest: Vec<Out>,
}

impl Model for Outs {
    ghost use Rattle.std.specs.Prelude.{List};
    ghost use Rattle.ham_turns.specs.declared.turn.Out.{Out};
    ghost use Rattle.ham_site.specs.Outs.{frames_of};

    ghost Value = { List Out };

    ghost view = { λ a. frames_of a.me a.replicas a.call a.rest.items };
}

/// What a turn's frames are made of: a call that goes to each of the replicas 1 to `replicas` but `me`, ascending, and
/// then the rest.
#[derive(Clone, Copy, Debug)]
pub struct Parts<'a> {
    pub me: u8,
    pub replicas: u8,
    pub call: Option<&'a Call>,
    pub rest: &'a [Out],
}

impl Outs {
    /// No frames.
    pub fn none(alloc: Global) -> Outs
        ensures { result ≡ [] }
    {
        Outs::of_frames(Vec::new(alloc))
    }

    /// These frames.
    pub fn of_frames(frames: Vec<Out>) -> Outs
        ensures { result ≡ frames.items }
    {
        Outs {
            me: 0,
            replicas: 0,
            call: None,
            rest: frames,
        }
    }

    /// A call that replica `me` decided, to each of the others, and then these frames.
    pub fn of_call(me: u8, replicas: u8, call: Call, rest: Vec<Out>) -> Outs
        ensures { result ≡ frames_of me replicas (Some call) rest.items }
    {
        Outs {
            me,
            replicas,
            call: Some(call),
            rest,
        }
    }

    /// What the frames are made of: so a call is encoded once.
    pub fn parts(&self) -> Parts<'_>
        ensures { self.now ≡ frames_of result.me result.replicas (option_copied result.call) result.rest.now }
    {
        let call = match &self.call {
            Some(call) => Some(call),
            None => None,
        };
        Parts {
            me: self.me,
            replicas: self.replicas,
            call,
            rest: &self.rest,
        }
    }
}

/// No frames, and room for one.
pub fn room_for_one(alloc: Global) -> Result<Vec<Out>, NoMemory>
    ensures empty { IfOk result (λ frames. frames.items ≡ []) }
    ensures room { IfOk result (λ frames. vec_len frames < vec_capacity frames) }
{
    Ok(Vec::with_capacity(alloc, 1)?)
}

/// The frames with one more, for which there is room.
pub fn with_frame(mut frames: Vec<Out>, to: u8, frame: Frame) -> Vec<Out>
    requires { vec_len frames < vec_capacity frames }
    ensures { result.items ≡ frames.items ++ record { to = to; frame = frame } ∷ [] }
{
    frames.push_reserved(Out { to, frame });
    frames
}

/// What a turn answered, which calls it logged, what it sends, and whether nothing more was ready when it ended. Where a
/// call was decided here, it is the first that was logged.
#[derive(Drop)]
pub struct Turn<T> {
    pub answer: T,
    pub logged: Places,
    pub out: Outs,
    pub settled: bool,
}
