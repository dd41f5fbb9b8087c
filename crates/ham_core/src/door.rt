//! Doors of a node.

ghost use Rattle.std.specs.Prelude.{◌≡◌, ℕ, ◌≤◌, [], List, length, Option, Some, IsTrue, vec_capacity};
ghost use Rattle.std.specs.List.{AllByRecursion};
ghost use Rattle.ham_syntax.specs.Objects.{Schema};
ghost use Rattle.ham_plan.specs.Plans.{Plan};
ghost use Rattle.ham_turns.specs.Settings.{setting_of};
ghost use Rattle.ham_journal.specs.declared.entry.Entry.{Entry};
ghost use Rattle.ham_journal.specs.Replies.{MayEnter, IsOfKind, FitsReply};
ghost use Rattle.ham_bytes.specs.Causes.{Rose};
ghost use Rattle.ham_core.specs.Doors.{EntersBy, StoppedBy, Moves, Causes};
ghost use Rattle.ham_core.specs.Each.{EntersEach, standing};

use crate::each::enter_each;
use crate::guarded::Guarded;
use crate::seats::{Home, Seat};
use ham_journal::{Input, Reply};
use std::collections::VecDeque;

/// A way into a node. It knows of which object, plan and replica the node is, how many entries were made by it, and three
/// counts, that never fall: of its answers that the node is or was stopped, that it is full, and that a frame was refused. It
/// may tell its node's journal.
pub trait Door {
    ghost object: { Self → Schema };

    ghost plan: { Self → Plan };

    ghost me: { Self → ℕ };

    ghost history: { Self → Option (List Entry) };

    ghost entries: { Self → ℕ };

    ghost stops: { Self → ℕ };

    ghost fulls: { Self → ℕ };

    ghost refusals: { Self → ℕ };

    /// Enters an input.
    fn enter(&mut self, input: Input) -> Reply
        requires { MayEnter (setting_of (plan self.old)) (me self.old) input }
        ensures told { EntersBy (object self.old) (plan self.old) (me self.old) (history self.old) (history self.new) input result }
        ensures kind { IsOfKind input result }
        ensures fits { FitsReply result }
        ensures entries { Moves result (entries self.old) (entries self.new) }
        ensures object { object self.new ≡ object self.old }
        ensures plan { plan self.new ≡ plan self.old }
        ensures me { me self.new ≡ me self.old }
        ensures stops { stops self.old ≤ stops self.new }
        ensures fulls { fulls self.old ≤ fulls self.new }
        ensures refusals { refusals self.old ≤ refusals self.new }
        ensures causes { Causes result (stops self.old) (stops self.new) (fulls self.old) (fulls self.new) (refusals self.old) (refusals self.new) };

    /// Enters inputs in order, as if each were entered by itself, up to and with the first that is replied that the node
    /// stops or was stopped: whether one was. What isn't entered is left. Nobody else enters between two of them.
    fn enter_all(&mut self, inputs: &mut VecDeque<Input>, replies: &mut Vec<Reply>) -> bool
        requires may { AllByRecursion (MayEnter (setting_of (plan self.old)) (me self.old)) inputs.old.items }
        requires empty { replies.old.items ≡ [] }
        requires room { length inputs.old.items ≤ vec_capacity replies.old }
        ensures told { EntersEach (object self.old) (plan self.old) (me self.old) (standing (history self.old) (entries self.old) (stops self.old) (fulls self.old) (refusals self.old))
            (standing (history self.new) (entries self.new) (stops self.new) (fulls self.new) (refusals self.new)) inputs.old.items inputs.new.items replies.new.items result }
        ensures object { object self.new ≡ object self.old }
        ensures plan { plan self.new ≡ plan self.old }
        ensures me { me self.new ≡ me self.old };

    /// Whether the node was stopped. It makes no entry.
    fn stopped(&mut self) -> bool
        ensures history { history self.new ≡ history self.old }
        ensures told { StoppedBy (object self.old) (plan self.old) (me self.old) (history self.old) result }
        ensures entries { entries self.new ≡ entries self.old }
        ensures object { object self.new ≡ object self.old }
        ensures plan { plan self.new ≡ plan self.old }
        ensures me { me self.new ≡ me self.old }
        ensures stops { stops self.old ≤ stops self.new }
        ensures fulls { fulls self.old ≤ fulls self.new }
        ensures refusals { refusals self.old ≤ refusals self.new }
        ensures stopped { IsTrue result → Rose (stops self.old) (stops self.new) };
}

/// The counts of a door's answers: that the node is or was stopped, that it is full, and that a frame was refused.
#[derive(Clone, Copy, PartialEq, Eq)]
pub struct Tally {
    pub stops: u64,
    pub fulls: u64,
    pub refusals: u64,
}

impl Tally {
    /// Nothing was answered.
    pub const fn new() -> Tally {
        Tally {
            stops: 0,
            fulls: 0,
            refusals: 0,
        }
    }
}

/// Counts an answer.
pub fn count(tally: &mut Tally, reply: &Reply)
    ensures stops { tally.old.stops ≤ tally.new.stops }
    ensures fulls { tally.old.fulls ≤ tally.new.fulls }
    ensures refusals { tally.old.refusals ≤ tally.new.refusals }
    ensures causes { Causes reply.now tally.old.stops tally.new.stops tally.old.fulls tally.new.fulls tally.old.refusals tally.new.refusals }
{
    match reply {
        Reply::Stopped => tally.stops = tally.stops.saturating_add(1),
        Reply::Stopping => tally.stops = tally.stops.saturating_add(1),
        Reply::Full => tally.fulls = tally.fulls.saturating_add(1),
        Reply::NotDelivered(_) => tally.refusals = tally.refusals.saturating_add(1),
        Reply::Issued { .. } => {}
        Reply::NotIssued(_) => {}
        Reply::Delivered { .. } => {}
        Reply::Ticked { .. } => {}
        Reply::Collected(_) => {}
        Reply::Value(_) => {}
        Reply::Rows(_) => {}
        Reply::Asked(_) => {}
        Reply::Log(_) => {}
        Reply::Counts(_) => {}
        Reply::Recorded(_) => {}
        Reply::NoMemory => {}
    }
}

/// A door to a node of one's own, without a lock. It tells the journal.
#[derive(Drop)]
pub struct Local<L: Home> {
    guarded: Guarded<L>,
    seat: Seat<L>,
    tally: Tally,
}

impl<L: Home> Door for Local<L> {
    ghost object = { λ d. L.object };

    ghost plan = { λ d. L.plan };

    ghost me = { λ d. L.me };

    ghost history = { λ d. Some d.guarded.journal };

    ghost entries = { λ d. d.seat.share.amount };

    ghost stops = { λ d. d.tally.stops };

    ghost fulls = { λ d. d.tally.fulls };

    ghost refusals = { λ d. d.tally.refusals };

    fn enter(&mut self, input: Input) -> Reply {
        let reply = self.guarded.enter(&mut self.seat, input);
        count(&mut self.tally, &reply);
        reply
    }

    fn enter_all(&mut self, inputs: &mut VecDeque<Input>, replies: &mut Vec<Reply>) -> bool {
        enter_each(
            &mut self.guarded,
            &mut self.seat,
            &mut self.tally,
            inputs,
            replies,
        )
    }

    fn stopped(&mut self) -> bool {
        let stopped = self.guarded.stopped();
        if stopped {
            self.tally.stops = self.tally.stops.saturating_add(1);
        }
        stopped
    }
}

impl<L: Home> Local<L> {
    /// A door with a seat of the node.
    pub fn new(guarded: Guarded<L>, seat: Seat<L>) -> Local<L>
        ensures guarded { result.guarded ≡ guarded }
        ensures seat { result.seat ≡ seat }
    {
        Local {
            guarded,
            seat,
            tally: Tally::new(),
        }
    }

    /// The node, and the seat.
    pub fn parts(self) -> (Guarded<L>, Seat<L>)
        ensures guarded { result.0 ≡ self.guarded }
        ensures seat { result.1 ≡ self.seat }
    {
        (self.guarded, self.seat)
    }
}
