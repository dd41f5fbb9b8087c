//! The seats of a node, and the shares of its ledger.

ghost use Rattle.std.specs.Prelude.{◌≡◌, ℕ, ◌+◌, ◌↔◌, [], IfSome, None, vec_len, sum_by};
ghost use Rattle.ham_syntax.specs.Objects.{Schema};
ghost use Rattle.ham_plan.specs.Plans.{Plan};

use std::marker::Brand;
use std::sync::ledger::{Ledger, Share};

/// A ledger of a node: its object, its plan, and which replica it is.
pub trait Home: Ledger {
    ghost object: { Schema };

    ghost plan: { Plan };

    ghost me: { ℕ };
}

// What stands here is never read: a call with a `Brand` says which object, plan and replica it is for.
impl Home for Brand {
    ghost object = { record { relations = []; counters = []; invariants = []; methods = [] } };

    ghost plan = { record { methods = 0; replicas = 1; conflict = []; depends = []; least = [] } };

    ghost me = { 1 };
}

/// The right of one worker to enter. Its share's amount is the number of the entries that it made.
#[derive(Drop)]
pub struct Seat<L: Home> {
    pub number: u8,
    pub share: Share<L>,
    pub ghost one_part: { share.parts ≡ 1 },
}

/// The seats of a node that aren't taken yet.
#[derive(Drop)]
pub struct Seats<L: Home> {
    rest: Share<L>,
    pub next: u8,
    pub count: u8,
    ghost left: { rest.parts + next ≡ count },
    ghost none: { rest.amount ≡ 0 },
}

impl<L: Home> Seats<L> {
    /// As many seats as the share has parts.
    pub(crate) fn new(rest: Share<L>, count: u8) -> Seats<L>
        requires parts { rest.parts ≡ count }
        requires amount { rest.amount ≡ 0 }
        ensures next { result.next ≡ 0 }
        ensures count { result.count ≡ count }
    {
        Seats {
            rest,
            next: 0,
            count,
        }
    }

    /// The next seat, by which nothing was entered; none where each was taken.
    pub fn take(&mut self) -> Option<Seat<L>>
        ensures seat { IfSome result (λ s. (s.number ≡ self.old.next) × (s.share.amount ≡ 0) × (self.new.next ≡ self.old.next + 1)) }
        ensures none { (result ≡ None) ↔ (self.old.next ≡ self.old.count) }
        ensures unchanged { result ≡ None → self.new.next ≡ self.old.next }
        ensures count { self.new.count ≡ self.old.count }
    {
        let Seats { rest, next, count } = self;
        if *next == *count {
            return None;
        }
        let number = *next;
        let share = rest.split_off(1, 0);
        *next += 1;
        Some(Seat { number, share })
    }

    /// What is left where each seat was taken: a share of no part.
    pub fn rest(self) -> Share<L>
        requires { self.next ≡ self.count }
        ensures parts { result.parts ≡ 0 }
        ensures amount { result.amount ≡ 0 }
    {
        self.rest
    }
}

/// Puts the shares of seats together.
pub(crate) fn gather<L: Home>(all: &mut Share<L>, seats: Vec<Seat<L>>)
    ensures parts { all.new.parts ≡ all.old.parts + vec_len seats }
    ensures amount { all.new.amount ≡ all.old.amount + sum_by (λ s. s.share.amount) seats.items }
{
    for seat in seats {
        let Seat { number: _, share } = seat;
        all.merge(share);
    }
}
