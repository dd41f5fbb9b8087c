//! The requests that were made, with their verdicts.

ghost use Rattle.std.specs.Prelude.{◌≡◌, ◌-◌, ◌<◌, ◌≤◌, [], length, replicate, get_or, IfOk};
ghost use Rattle.ham_lane.specs.Lanes.{numbered};
ghost use Rattle.ham_resend.specs.Asking as asking;

use ham_frame::{Frame, Ruling};
use ham_lists::NoMemory;
use ham_syntax::Act;
use ham_syntax::limits::{MAX_DUE, MAX_REQUESTS};
use std::alloc::{AllocFailed, Global};
use std::marker::Model;
use thiserror::Error;

/// A request, and its verdict where one came.
#[derive(Clone, Copy, Debug, PartialEq, Eq)]
pub struct Ask {
    pub act: Act,
    pub verdict: Option<Ruling>,
}

/// Why a request was not applied.
#[derive(Clone, Copy, Debug, PartialEq, Eq)]
pub enum Refused {
    /// A guard failed.
    Guard(u8),
    /// An invariant would have been broken.
    Invariant(u8),
    /// The lane was full.
    Full,
}

/// What is known of a request.
#[derive(Clone, Copy, Debug, PartialEq, Eq)]
pub enum Asked {
    /// No such request was made.
    Unknown,
    /// No verdict came yet.
    Pending,
    /// It is the call of this number in the group's lane.
    Applied(u32),
    Refused(Refused),
}

/// Whether a verdict is the first for its request.
#[derive(Clone, Copy, Debug, PartialEq, Eq)]
pub enum Told {
    First,
    Again,
}

/// Why a request isn't made.
#[derive(Clone, Copy, Debug, PartialEq, Eq, Drop, Error)]
pub enum AskFault {
    /// The group has all the requests that it takes.
    #[error("a group takes {max} requests")]
    Full { max: u32 },
    /// Memory ran out.
    #[error("out of memory")]
    NoMemory,
}

impl<T: Drop> From<AllocFailed<T>> for AskFault {
    ghost use Rattle.std.specs.Prelude.{◌≡◌};
    ghost use Rattle.ham_resend.specs.declared.asks.AskFault.TheVariants as faults;

    ghost from_gives = { λ _ e. e ≡ faults.NoMemory };

    fn from(_e: AllocFailed<T>) -> AskFault {
        AskFault::NoMemory
    }
}

/// Why a verdict isn't taken.
#[derive(Clone, Copy, Debug, PartialEq, Eq, Drop, Error)]
pub enum VerdictFault {
    /// No such request was made.
    #[error("{len} requests were made")]
    Unknown { len: u32 },
    /// Another verdict came before.
    #[error("another verdict came before")]
    Differs { kept: Ruling },
}

/// The requests that were made to one group, by number from 1. All before index `settled` have a verdict: a look for what
/// is due begins there.
#[derive(Drop)]
pub(crate) struct Group {
    made: Vec<Ask>,
    settled: usize,
}

impl Model for Group {
    ghost use Rattle.std.specs.Prelude.{List};
    ghost use Rattle.ham_resend.specs.declared.asks.Ask.{Ask};

    ghost Value = { List Ask };

    ghost use Rattle.ham_resend.specs.Asking.{IsGroup};

    ghost view = { λ a. a.made.items };

    ghost invariant = { λ a. IsGroup a.made.items a.settled };
}

impl Group {
    fn new(alloc: Global) -> Group
        ensures { result ≡ [] }
    {
        Group {
            made: Vec::new(alloc),
            settled: 0,
        }
    }

    fn len(&self) -> u32
        ensures made { result ≡ length self.now }
        ensures few { result ≤ MAX_REQUESTS }
    {
        self.made.len() as u32
    }

    fn ask(&mut self, act: &Act) -> Result<u32, AskFault>
        ensures { asking.MakesIn self.old self.new act.now result }
    {
        let len = self.made.len();
        if len >= MAX_REQUESTS {
            return Err(AskFault::Full {
                max: MAX_REQUESTS as u32,
            });
        }
        self.made.push(Ask {
            act: *act,
            verdict: None,
        })?;
        Ok(len as u32 + 1)
    }

    /// The request of this number.
    fn made(&self, number: u32) -> Option<Ask>
        ensures { result ≡ numbered self.now number }
    {
        if number == 0 {
            return None;
        }
        self.made.get(number as usize - 1).copied()
    }

    /// Keeps the first verdict on a request.
    fn tell(&mut self, number: u32, ruling: Ruling)
        requires some { 1 ≤ number }
        requires made { number ≤ length self.old }
        ensures { self.new ≡ asking.told_at self.old (number - 1) ruling }
    {
        let at = number as usize - 1;
        let ask = self.made[at];
        self.made[at] = Ask {
            act: ask.act,
            verdict: Some(ruling),
        };
        self.settled = first_open(&self.made, self.settled);
    }

    /// The lowest requests without a verdict.
    fn due(&self, group: u8) -> Result<Vec<Frame>, NoMemory>
        ensures { IfOk result (λ frames. frames.items ≡ asking.due group self.now) }
    {
        due_from(*self.made.allocator(), group, &self.made, self.settled)
    }
}

/// From `from` on, where the first request without a verdict stands.
fn first_open(made: &[Ask], from: usize) -> usize
    requires { from ≤ length made.now }
    ensures { asking.IsFirstOpen made.now from result }
{
    let mut at = from;
    while at < made.len() && made[at].verdict.is_some() {
        at += 1;
    }
    at
}

/// The lowest requests without a verdict; those before index `settled` have one.
fn due_from(alloc: Global, group: u8, made: &[Ask], settled: usize) -> Result<Vec<Frame>, NoMemory>
    requires { asking.IsGroup made.now settled }
    ensures { IfOk result (λ frames. frames.items ≡ asking.due group made.now) }
{
    let mut frames = Vec::new(alloc);
    let mut count = 0;
    for at in settled..made.len() {
        if count == MAX_DUE {
            break;
        }
        let ask = made[at];
        if let None = ask.verdict {
            frames.push(Frame::Request {
                group,
                number: at as u32 + 1,
                act: ask.act,
            })?;
            count += 1;
        }
    }
    Ok(frames)
}

/// The requests that were made, by group.
#[derive(Drop)]
pub struct Asks {
    groups: Vec<Group>,
}

impl Model for Asks {
    ghost use Rattle.std.specs.Prelude.{List};
    ghost use Rattle.ham_resend.specs.declared.asks.Ask.{Ask};

    ghost Value = { List (List Ask) };

    ghost view = { λ a. a.groups.items };
}

impl Asks {
    /// No requests, to so many groups.
    pub fn new(alloc: Global, groups: u8) -> Result<Asks, NoMemory>
        ensures { IfOk result (λ asks. asks ≡ replicate groups []) }
    {
        let mut made = Vec::new(alloc);
        for _ in 0..groups {
            made.push(Group::new(alloc))?;
        }
        Ok(Asks { groups: made })
    }

    /// How many requests were made to a group.
    pub fn len(&self, group: u8) -> u32
        requires { group < length self.now }
        ensures made { result ≡ length (get_or self.now group []) }
        ensures few { result ≤ MAX_REQUESTS }
    {
        let group = &self.groups[group as usize];
        group.len()
    }

    /// Makes the next request to a group, and gives its number. On a refusal nothing has changed.
    pub fn ask(&mut self, group: u8, act: &Act) -> Result<u32, AskFault>
        requires { group < length self.old }
        ensures { asking.Makes self.old self.new group act.now result }
    {
        let group = &mut self.groups[group as usize];
        group.ask(act)
    }

    /// Takes a verdict on a request. The first stays, and another is refused.
    pub fn on_verdict(
        &mut self,
        group: u8,
        number: u32,
        ruling: &Ruling,
    ) -> Result<Told, VerdictFault>
        requires { group < length self.old }
        ensures { asking.Tells self.old self.new group number ruling.now result }
    {
        let group = &mut self.groups[group as usize];
        let Some(ask) = group.made(number) else {
            return Err(VerdictFault::Unknown { len: group.len() });
        };
        match ask.verdict {
            None => {
                group.tell(number, *ruling);
                Ok(Told::First)
            }
            Some(kept) => {
                if kept == *ruling {
                    Ok(Told::Again)
                } else {
                    Err(VerdictFault::Differs { kept })
                }
            }
        }
    }

    /// What is known of a request.
    pub fn verdict(&self, group: u8, number: u32) -> Asked
        ensures { result ≡ asking.asked_of self.now group number }
    {
        match self.groups.get(group as usize) {
            None => Asked::Unknown,
            Some(group) => known_of(group.made(number)),
        }
    }

    /// The lowest requests to a group without a verdict, at most 16.
    pub fn due(&self, group: u8) -> Result<Vec<Frame>, NoMemory>
        requires { group < length self.now }
        ensures { IfOk result (λ frames. frames.items ≡ asking.due group (get_or self.now group [])) }
    {
        let asks = &self.groups[group as usize];
        asks.due(group)
    }
}

fn known_of(ask: Option<Ask>) -> Asked
    ensures { result ≡ asking.asked_by ask }
{
    match ask {
        None => Asked::Unknown,
        Some(ask) => match ask.verdict {
            None => Asked::Pending,
            Some(Ruling::Applied(number)) => Asked::Applied(number),
            Some(Ruling::Guard(guard)) => Asked::Refused(Refused::Guard(guard)),
            Some(Ruling::Invariant(invariant)) => Asked::Refused(Refused::Invariant(invariant)),
            Some(Ruling::Full) => Asked::Refused(Refused::Full),
        },
    }
}
