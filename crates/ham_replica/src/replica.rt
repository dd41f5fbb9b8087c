//! A replica.

ghost use Rattle.std.specs.Prelude.{◌≡◌, ◌≢◌, ℕ, ◌^◌, ◌*◌, ◌≤◌, ◌↔◌, IsTrue, IfOk, IsSome, length, nat_abs, get_or, count_by};
ghost use Rattle.std.specs.Option.{option_copied};
ghost use Rattle.ham_state.specs.Content.{opening, value};
ghost use Rattle.ham_plan.specs.Lists.{In};
ghost use Rattle.ham_frame.specs.Spelling.{Fits};
ghost use Rattle.ham_resend.specs.Asking.{asked_of};
ghost use Rattle.ham_turns.specs.Settings.{setting_of, IsReplica};
ghost use Rattle.ham_turns.specs.Words.{in_lane};
ghost use Rattle.ham_turns.specs.Ready.{IsSettled};
ghost use Rattle.ham_replica.specs.Opening.{opening_lists};
ghost use Rattle.ham_replica.specs.Looks.{logged_call};
ghost use Rattle.ham_replica.specs.Values.{words};
ghost use Rattle.ham_replica.specs.Turning.{Issues, Delivers, Ticks, Settles};

use crate::begin::new_held;
use crate::deliver::deliver_in;
use crate::drain::drain;
use crate::held::Held;
use crate::issue::issue_in;
use crate::look::{call_logged, is_settled};
use crate::tick::tick_in;
use ham_frame::Frame;
use ham_lists::NoMemory;
use ham_plan::Plan;
use ham_resend::Asked;
use ham_site::{Site, Turn};
use ham_state::State;
use ham_syntax::limits::{MAX_LANE_CALLS, MAX_LANES};
use ham_syntax::{Act, Call, Items, Object, Place, Places};
use ham_turns::{DeliverRefusal, Delivered, IssueRefusal, Issued};
use std::alloc::Global;
use std::marker::Model;

/// A replica of an object under a plan.
#[derive(Drop)]
pub struct Replica {
    site: Site,
    held: Held,
}

impl Model for Replica {
    ghost use Rattle.ham_replica.specs.Values.{Replica, coded_replica};

    ghost Value = { Replica };

    ghost coded = { coded_replica };

    ghost use Rattle.ham_replica.specs.Shown.{lists_of};
    ghost use Rattle.ham_replica.specs.Kept.{IsKept};

    ghost view = { λ a. record { site = a.site; lists = lists_of a.held } };

    ghost invariant = { λ a. IsKept a.site (lists_of a.held) };
}

impl Replica {
    /// A replica that has taken in nothing, with an object and a plan of its own. What the plan says of methods and lanes
    /// is found here, once.
    pub fn new(alloc: Global, object: &Object, plan: &Plan, me: u8) -> Result<Replica, NoMemory>
        requires { IsReplica (setting_of plan.now) me }
        ensures site { IfOk result (λ r. r.site ≡ record { object = object.now; plan = plan.now; me = me }) }
        ensures lists { IfOk result (λ r. r.lists ≡ opening_lists r.site opening) }
    {
        let site = Site::new(alloc, object, plan, me)?;
        let held = new_held(alloc, &site)?;
        Ok(Replica { site, held })
    }

    /// Takes an act: it is decided here, or a request for it goes to the leader of its group. After a refusal the replica
    /// is as it was.
    pub fn issue(&mut self, act: &Act) -> Result<Turn<Issued>, IssueRefusal>
        requires { IsSettled (setting_of self.old.site.plan) (words self.old.lists) }
        ensures site { self.new.site ≡ self.old.site }
        ensures turn { Issues self.old self.new act.now result }
    {
        issue_in(&self.site, &mut self.held, act)
    }

    /// Takes in a frame of another replica. After a refusal the replica is as it was.
    pub fn deliver(&mut self, from: u8, frame: &Frame) -> Result<Turn<Delivered>, DeliverRefusal>
        requires settled { IsSettled (setting_of self.old.site.plan) (words self.old.lists) }
        requires sender { IsReplica (setting_of self.old.site.plan) from }
        requires another { from ≢ self.old.site.me }
        requires fits { Fits frame.now }
        ensures site { self.new.site ≡ self.old.site }
        ensures turn { Delivers self.old self.new from frame.now result }
    {
        deliver_in(&self.site, &mut self.held, from, frame)
    }

    /// Sends again what peers lack.
    pub fn tick(&mut self) -> Result<Turn<()>, NoMemory>
        requires { IsSettled (setting_of self.old.site.plan) (words self.old.lists) }
        ensures same { self.new ≡ self.old }
        ensures turn { IfOk result (λ t. Ticks self.old t) }
    {
        tick_in(&self.site, &self.held)
    }

    /// Logs what is ready. After a want of memory the calls that were logged stay so.
    pub fn settle(&mut self) -> Result<Places, NoMemory>
        ensures site { self.new.site ≡ self.old.site }
        ensures drain { Settles self.old self.new result }
    {
        let alloc = *self.held.log.allocator();
        let mut places = Vec::new(alloc);
        if drain(&self.site, &mut self.held, &mut places) {
            Ok(Items::from(places))
        } else {
            Err(NoMemory)
        }
    }

    /// Whether no call that waits is ready.
    pub fn settled(&self) -> bool
        ensures { IsTrue result ↔ IsSettled (setting_of self.now.site.plan) (words self.now.lists) }
    {
        is_settled(&self.site, &self.held)
    }

    /// The state, which was opened for the replica's object.
    pub fn state(&self) -> &State
        ensures state { result.now.content ≡ self.now.lists.state }
        ensures opened { result.now.invariants ≡ self.now.site.object.invariants }
        ensures small { (c k : ℕ) → nat_abs (value result.now.content c k) ≤ 2 ^ 59 }
    {
        &self.held.state
    }

    /// The places of the logged calls, in order.
    pub fn log(&self) -> &[Place]
        ensures log { result.now ≡ self.now.lists.log }
        ensures few { length result.now ≤ MAX_LANES * MAX_LANE_CALLS }
    {
        &self.held.log
    }

    /// How many calls of each lane are logged.
    pub fn counts(&self) -> &[u32]
        ensures logged { result.now ≡ self.now.lists.logged }
        ensures many { length result.now ≡ (setting_of self.now.site.plan).lanes }
        ensures each { (l : ℕ) → get_or result.now l 0 ≡ count_by (in_lane l) self.now.lists.log }
    {
        &self.held.logged
    }

    /// What is known of a request that was made here.
    pub fn verdict(&self, group: u8, number: u32) -> Asked
        ensures { result ≡ asked_of self.now.lists.asks group number }
    {
        self.held.asks.verdict(group, number)
    }

    /// The logged call of a place; none exactly where no call of the place is logged.
    pub fn call_at(&self, place: &Place) -> Option<&Call>
        ensures call { option_copied result ≡ logged_call self.now.lists place.now }
        ensures logged { IsSome (option_copied result) ↔ In place.now self.now.lists.log }
    {
        call_logged(&self.held, place)
    }
}
