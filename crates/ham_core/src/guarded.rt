//! What the lock of a node keeps.

ghost use Rattle.std.specs.Prelude.{◌≡◌, ◌≢◌, ◌+◌, ◌≤◌, ◌↔◌, [], true, false, length, IfOk, IsTrue, vec_len, sum_by};
ghost use Rattle.ham_steps.specs.Content.{opening};
ghost use Rattle.ham_turns.specs.Settings.{rules_of, setting_of};
ghost use Rattle.ham_replica.specs.Opening.{opening_lists};
ghost use Rattle.ham_replica.specs.Values.{words};
ghost use Rattle.ham_journal.specs.declared.input.Input.TheVariants as inputs;
ghost use Rattle.ham_journal.specs.declared.input.Reply.TheVariants as replies;
ghost use Rattle.ham_journal.specs.Replies.{MayEnter, IsOfKind, FitsReply};
ghost use Rattle.ham_journal.specs.Histories.{Enters, HasCore, opening_core};
ghost use Rattle.ham_journal.specs.Laws.{HoldsStop};
ghost use Rattle.ham_journal.specs.Closed.{IsClosed};
ghost use Rattle.ham_journal.specs.Cores.{box_of};
ghost use Rattle.ham_turns.specs.Ready.{IsSettled};
ghost use Rattle.ham_core.specs.Doors.{Moves};
ghost use Rattle.ham_core.specs.Kept.{core_of, site_by};

use crate::boxes::Boxes;
use crate::marks::{is_full, is_idle};
use crate::seats::{Home, Seat, Seats, gather};
use crate::work::entered;
use ham_journal::{Entry, Input, MAX_ENTRIES, Reply};
use ham_plan::Plan;
use ham_replica::Replica;
use ham_syntax::NoMemory;
use ham_syntax::limits::MAX_REPLICAS;
use std::alloc::Global;
use std::marker::Model;
use std::sync::ledger::{Blank, Book, Share};

/// A replica, the frames that wait for its peers, the mark that it was stopped, the journal of what was entered, and the
/// book that counts the entries; and, for each peer, whether its feeder sleeps.
#[derive(Drop)]
pub struct Guarded<L: Home> {
    replica: Replica,
    boxes: Boxes,
    stopped: bool,
    journal: Vec<Entry>,
    book: Book<L>,
    sleeping: [bool; MAX_REPLICAS + 1],
}

impl<L: Home> Model for Guarded<L> {
    ghost use Rattle.std.specs.Coded.{codes};
    ghost use Rattle.ham_replica.specs.Values.{coded_replica};
    ghost use Rattle.ham_core.specs.Kept.{Kept, kept_by, IsKept, AreSoundIn};

    ghost Value = { Kept };

    ghost coded = { Prim.hlevel (codes, coded_replica) };

    ghost view = { λ g. kept_by g.replica g.boxes g.stopped g.journal.items g.book.total };

    ghost invariant = { λ g. IsKept L.object L.plan L.me (kept_by g.replica g.boxes g.stopped g.journal.items g.book.total) × AreSoundIn g.replica g.boxes };
}

impl<L: Home> Guarded<L> {
    /// A node that entered nothing yet, with a seat for each part of the blank.
    pub fn new(
        alloc: Global,
        blank: Blank,
        replica: Replica,
        plan: &Plan,
        seats: u8,
    ) -> Result<(Guarded<L>, Seats<L>), NoMemory>
        requires name { blank.name ≡ L.name }
        requires parts { blank.parts ≡ L.parts }
        requires seats { seats ≡ L.parts }
        requires plan { plan.now ≡ L.plan }
        requires site { replica.site ≡ site_by L.object L.plan L.me }
        requires lists { replica.lists ≡ opening_lists replica.site opening }
        ensures opening { IfOk result (λ r. (core_of r.0 ≡ opening_core L.object L.plan) × (r.0.journal ≡ [])) }
        ensures seats { IfOk result (λ r. (r.1.next ≡ 0) × (r.1.count ≡ L.parts)) }
    {
        let boxes = Boxes::new(alloc, plan.replicas())?;
        let (book, rest) = blank.open::<L>();
        let guarded = Guarded {
            replica,
            boxes,
            stopped: false,
            journal: Vec::new(alloc),
            book,
            sleeping: [false; MAX_REPLICAS + 1],
        };
        Ok((guarded, Seats::new(rest, seats)))
    }

    /// Enters an input. The tests come in this order: whether the node was stopped, whether the journal is full (a stop it
    /// takes), and whether there is memory for an entry. Then the node settles and does the input's work, after which nothing
    /// can fail. No entry is made of a tick that sends nothing, or of a look into an empty box, where nothing was settled.
    pub fn enter(&mut self, seat: &mut Seat<L>, input: Input) -> Reply
        requires { MayEnter (setting_of L.plan) L.me input }
        ensures enters { Enters (rules_of L.object) (setting_of L.plan) L.me seat.old.number (core_of self.old) self.old.journal (core_of self.new) self.new.journal input result }
        ensures stopped { (result ≡ replies.Stopped) ↔ (self.old.stopped ≡ true) }
        ensures full { (result ≡ replies.Full) ↔ ((self.old.stopped ≡ false) × (MAX_ENTRIES ≤ length self.old.journal) × (input ≢ inputs.Stop)) }
        ensures kind { IsOfKind input result }
        ensures fits { FitsReply result }
        ensures moves { Moves result seat.old.share.amount seat.new.share.amount }
        ensures share { seat.new.share.amount + length self.old.journal ≡ seat.old.share.amount + length self.new.journal }
        ensures book { self.new.total + length self.old.journal ≡ self.old.total + length self.new.journal }
        ensures number { seat.new.number ≡ seat.old.number }
        ensures told { HasCore L.object L.plan L.me self.old.journal (core_of self.old) }
    {
        if self.stopped {
            return Reply::Stopped;
        }
        if is_full(self.journal.len(), &input) {
            return Reply::Full;
        }
        if self.journal.reserve(1).is_err() {
            return Reply::NoMemory;
        }
        let alloc = *self.journal.allocator();
        let (entry, reply) = entered(
            alloc,
            &mut self.replica,
            &mut self.boxes,
            &mut self.stopped,
            seat.number,
            input,
        );
        if is_idle(&entry, &reply) {
            return reply;
        }
        self.journal.push_reserved(entry);
        self.book.add(&mut seat.share, 1);
        reply
    }

    /// Whether it was stopped: exactly where a stop stands in the journal, and its work was done.
    pub fn stopped(&self) -> bool
        ensures stopped { result ≡ self.now.stopped }
        ensures exactly { IsTrue result ↔ HoldsStop self.now.journal }
        ensures told { HasCore L.object L.plan L.me self.now.journal (core_of self.now) }
    {
        self.stopped
    }

    /// Whether the feeder of a peer is to sleep: no frame waits for the peer, and the node wasn't stopped. It is noted then
    /// that it sleeps.
    pub fn sleeps(&mut self, peer: u8) -> bool
        ensures { self.new ≡ self.old }
    {
        if self.stopped || !self.boxes.is_empty(peer) {
            return false;
        }
        note(&mut self.sleeping, peer, true);
        true
    }

    /// Whether a feeder that sleeps is to be woken: a frame waits for its peer, or the node was stopped. It is noted then that
    /// it doesn't sleep.
    pub fn wakes(&mut self, peer: u8) -> bool
        ensures { self.new ≡ self.old }
    {
        if !self.stopped && self.boxes.is_empty(peer) {
            return false;
        }
        note(&mut self.sleeping, peer, false)
    }

    /// Nothing: that the log is closed by its frames.
    pub fn closed_log(&self)
        ensures { IsClosed (setting_of L.plan) (words self.now.replica.lists) }
    {
        let _journal = &self.journal;
    }

    /// How many entries the journal has.
    pub fn entries(&self) -> u64
        ensures { result ≡ length self.now.journal }
    {
        self.journal.len() as u64
    }

    /// The last audit: a share with all the parts has as its amount the number of entries.
    fn audit(&mut self, all: &mut Share<L>) -> u64
        requires { all.old.parts ≡ L.parts }
        ensures entries { result ≡ length self.old.journal }
        ensures amount { all.old.amount ≡ result }
    {
        self.book.audit(all);
        self.journal.len() as u64
    }
}

/// Notes whether the feeder of a peer sleeps: whether it did before.
fn note(sleeping: &mut [bool; MAX_REPLICAS + 1], peer: u8, sleeps: bool) -> bool {
    match sleeping.get_mut(peer as usize) {
        Some(slept) => std::mem::replace(slept, sleeps),
        None => false,
    }
}

/// How many entries the journal has, which is what the seats entered in all.
pub fn gathered<L: Home>(mut guarded: Guarded<L>, rest: Share<L>, seats: Vec<Seat<L>>) -> u64
    requires parts { rest.parts ≡ 0 }
    requires amount { rest.amount ≡ 0 }
    requires seats { vec_len seats ≡ L.parts }
    ensures journal { result ≡ length guarded.journal }
    ensures shares { result ≡ sum_by (λ s. s.share.amount) seats.items }
{
    let mut all = rest;
    gather(&mut all, seats);
    guarded.audit(&mut all)
}
