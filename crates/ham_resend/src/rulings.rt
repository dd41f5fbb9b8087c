//! The rulings that were given.

ghost use Rattle.std.specs.Prelude.{◌≡◌, ◌+◌, ◌<◌, ◌≤◌, [], ◌∷◌, ◌++◌, length, get_or, IfOk, OnOk, OnErr};
ghost use Rattle.std.specs.Option.{option_copied};
ghost use Rattle.std.specs.List.{AllByRecursion};
ghost use Rattle.ham_lane.specs.Lanes.{numbered};
ghost use Rattle.ham_resend.specs.Giving as giving;

use ham_frame::{Ruled, Ruling};
use ham_lists::NoMemory;
use ham_syntax::Act;
use ham_syntax::limits::MAX_REQUESTS;
use std::alloc::Global;
use std::marker::Model;

/// The rulings on the requests of one sender to one group, by number from 1.
#[derive(Drop)]
pub(crate) struct Given {
    ruled: Vec<Ruled>,
}

impl Model for Given {
    ghost use Rattle.ham_resend.specs.Giving.{Given, shown_given};

    ghost Value = { Given };

    ghost view = { λ a. shown_given a.ruled };

    ghost use Rattle.std.specs.Prelude.{length, ◌≤◌};
    ghost use Rattle.ham_syntax.specs.declared.limits.TheConstants.{MAX_REQUESTS};

    ghost invariant = { λ a. length a.ruled.items ≤ MAX_REQUESTS };
}

impl Given {
    fn new(alloc: Global) -> Given
        ensures { result.ruled ≡ [] }
    {
        Given {
            ruled: Vec::new(alloc),
        }
    }

    /// How many rulings were given.
    fn len(&self) -> u32
        ensures ruled { result ≡ length self.now.ruled }
        ensures few { result ≤ MAX_REQUESTS }
    {
        self.ruled.len() as u32
    }

    /// The ruling of this number.
    fn kept(&self, number: u32) -> Option<&Ruled>
        ensures { option_copied result ≡ numbered self.now.ruled number }
    {
        if number == 0 {
            return None;
        }
        self.ruled.get(number as usize - 1)
    }

    /// Makes room for one ruling.
    fn reserve(&mut self) -> Result<(), NoMemory>
        ensures ruled { self.new.ruled ≡ self.old.ruled }
        ensures room { OnOk result (1 ≤ self.new.spare) }
    {
        self.ruled.reserve(1)?;
        Ok(())
    }

    /// Keeps the next ruling, and gives its number.
    fn rule(&mut self, act: &Act, ruling: &Ruling) -> Result<u32, NoMemory>
        requires { length self.old.ruled < MAX_REQUESTS }
        ensures ok { IfOk result (λ n. (n ≡ length self.old.ruled + 1) × (self.new.ruled ≡ self.old.ruled ++ record { act = act.now; ruling = ruling.now } ∷ [])) }
        ensures err { OnErr result ((self.old.spare ≡ 0) × (self.new.ruled ≡ self.old.ruled)) }
    {
        let number = self.ruled.len() as u32 + 1;
        self.ruled.push(Ruled {
            act: *act,
            ruling: *ruling,
        })?;
        Ok(number)
    }

    /// Keeps the next ruling, for which there is room.
    fn rule_reserved(&mut self, act: &Act, ruling: &Ruling)
        requires room { 1 ≤ self.old.spare }
        requires few { length self.old.ruled < MAX_REQUESTS }
        ensures { self.new.ruled ≡ self.old.ruled ++ record { act = act.now; ruling = ruling.now } ∷ [] }
    {
        self.ruled.push_reserved(Ruled {
            act: *act,
            ruling: *ruling,
        });
    }
}

/// The rulings that were given to one sender, by group.
#[derive(Drop)]
pub(crate) struct Sender {
    groups: Vec<Given>,
}

impl Model for Sender {
    ghost use Rattle.std.specs.Prelude.{List};
    ghost use Rattle.ham_resend.specs.Giving.{Given};

    ghost Value = { List Given };

    ghost view = { λ a. a.groups.items };
}

impl Sender {
    fn new(alloc: Global, groups: u8) -> Result<Sender, NoMemory>
        ensures long { IfOk result (λ sender. length sender ≡ groups) }
        ensures none { IfOk result (λ sender. AllByRecursion (λ g. g.ruled ≡ []) sender) }
    {
        let mut given = Vec::new(alloc);
        for _ in 0..groups {
            given.push(Given::new(alloc))?;
        }
        Ok(Sender { groups: given })
    }
}

/// The rulings that were given, by sender and group.
#[derive(Drop)]
pub struct Rulings {
    senders: Vec<Sender>,
}

impl Model for Rulings {
    ghost use Rattle.std.specs.Prelude.{List};
    ghost use Rattle.ham_resend.specs.Giving.{Given};

    ghost Value = { List (List Given) };

    ghost view = { λ a. a.senders.items };
}

impl Rulings {
    /// No rulings, in a plan of replicas 1 to `replicas` and so many groups.
    pub fn new(alloc: Global, replicas: u8, groups: u8) -> Result<Rulings, NoMemory>
        ensures long { IfOk result (λ rulings. length rulings ≡ replicas + 1) }
        ensures each { IfOk result (λ rulings. AllByRecursion (λ s. length s ≡ groups) rulings) }
        ensures none { IfOk result (λ rulings. AllByRecursion (λ s. AllByRecursion (λ g. g.ruled ≡ []) s) rulings) }
    {
        let mut senders = Vec::new(alloc);
        for _ in 0..u16::from(replicas) + 1 {
            senders.push(Sender::new(alloc, groups)?)?;
        }
        Ok(Rulings { senders })
    }

    /// The number of the next request of a sender to a group, from 1.
    pub fn next(&self, from: u8, group: u8) -> u32
        requires from { from < length self.now }
        requires group { group < length (get_or self.now from []) }
        ensures next { result ≡ length (giving.given_at self.now from group).ruled + 1 }
        ensures few { result ≤ MAX_REQUESTS + 1 }
    {
        let sender = &self.senders[from as usize];
        let given = &sender.groups[group as usize];
        given.len() + 1
    }

    /// What a sender asked of a group under this number, and the ruling on it; none exactly where none was given.
    pub fn kept(&self, from: u8, group: u8, number: u32) -> Option<&Ruled>
        requires from { from < length self.now }
        requires group { group < length (get_or self.now from []) }
        ensures { option_copied result ≡ numbered (giving.given_at self.now from group).ruled number }
    {
        let sender = &self.senders[from as usize];
        let given = &sender.groups[group as usize];
        given.kept(number)
    }

    /// Makes room for one ruling on a request of a sender to a group. The rulings stay.
    pub fn reserve(&mut self, from: u8, group: u8) -> Result<(), NoMemory>
        requires from { from < length self.old }
        requires group { group < length (get_or self.old from []) }
        ensures same { giving.KeepsRulings self.old self.new from group }
        ensures room { OnOk result (1 ≤ (giving.given_at self.new from group).spare) }
    {
        let sender = &mut self.senders[from as usize];
        let given = &mut sender.groups[group as usize];
        given.reserve()
    }

    /// Keeps the ruling on the next request of a sender to a group, and gives its number. Without memory the rulings stay.
    pub fn rule(&mut self, from: u8, group: u8, act: &Act, ruling: &Ruling) -> Result<u32, NoMemory>
        requires from { from < length self.old }
        requires group { group < length (get_or self.old from []) }
        requires few { length (giving.given_at self.old from group).ruled < MAX_REQUESTS }
        ensures { giving.Rules self.old self.new from group (record { act = act.now; ruling = ruling.now }) result }
    {
        let sender = &mut self.senders[from as usize];
        let given = &mut sender.groups[group as usize];
        given.rule(act, ruling)
    }

    /// Keeps the ruling on the next request of a sender to a group, for which there is room.
    pub fn rule_reserved(&mut self, from: u8, group: u8, act: &Act, ruling: &Ruling)
        requires from { from < length self.old }
        requires group { group < length (get_or self.old from []) }
        requires few { length (giving.given_at self.old from group).ruled < MAX_REQUESTS }
        requires room { 1 ≤ (giving.given_at self.old from group).spare }
        ensures { giving.AddsRuling self.old self.new from group (record { act = act.now; ruling = ruling.now }) }
    {
        let sender = &mut self.senders[from as usize];
        let given = &mut sender.groups[group as usize];
        given.rule_reserved(act, ruling);
    }
}
