//! Acts on random small states: each is done, permissible or not, so that the next ones meet states that break invariants.

ghost use Rattle.std.specs.Prelude.{◌≡◌, ℕ, ◌+◌, ◌^◌, ◌≤◌, nat_abs, IsTrue};
ghost use Rattle.ham_syntax.specs.Objects.{args_fit};
ghost use Rattle.ham_state.specs.Content.{value};

use crate::random::Random;
use crate::scan::{IDS, scan};
use ham_meaning::{Outcome, apply, permissible};
use ham_objfile::read;
use ham_state::State;
use ham_syntax::{Act, Args, NoMemory, Object};
use std::alloc::Global;
use std::test::Fail;

/// Students sit in courses, each in one at most, and pay: an invariant of each kind, and methods without a guard.
const COURSEWARE: &[u8] =
    b"hamsaz object 1\nrelation student 1\nrelation course 1\nrelation seat 2\ncounter paid keyed\ninvariant reference seat student 1\ninvariant reference seat course 2\ninvariant unique seat 1\ninvariant low paid -1\ninvariant high paid 2\nmethod addStudent\nparam s id\neffect insert student s\nmethod addCourse\nparam c id\neffect insert course c\nmethod deleteCourse\nparam c id\neffect delete course c\neffect delete seat _ c\nmethod closeCourse\nparam c id\neffect delete course c\nmethod sit\nparam s id\nparam c id\neffect insert seat s c\nmethod leave\nparam s id\neffect delete seat s _\nmethod pay\nparam s id\neffect add paid s #1\nmethod repay\nparam s id\neffect subtract paid s #1\nend\n";

const METHODS: u64 = 8;

/// The method that takes two ids.
const SIT: u8 = 4;

const INVARIANTS: usize = 5;

/// Which outcomes came so far.
#[derive(Drop)]
struct Seen {
    fine: bool,
    broken: [bool; INVARIANTS],
}

impl Seen {
    fn note(&mut self, outcome: Outcome) {
        match outcome {
            Outcome::Yes => self.fine = true,
            Outcome::Guard(_) => {}
            Outcome::Invariant(place) => {
                if let Some(broken) = self.broken.get_mut(usize::from(place)) {
                    *broken = true;
                }
            }
        }
    }
}

/// One act: its outcome, where the scan says the same of the state after it, and none where it doesn't.
fn one_act(
    alloc: Global,
    object: &Object,
    state: &mut State,
    act: &Act,
) -> Result<Option<Outcome>, NoMemory>
    requires opened { state.old.invariants ≡ object.now.invariants }
    requires fit { IsTrue (args_fit object.now act.now) }
    requires values { (c k : ℕ) → nat_abs (value state.old.content c k) ≤ 2 ^ 100 }
    ensures opened { state.new.invariants ≡ state.old.invariants }
    ensures small { (n : ℕ) → ((c k : ℕ) → nat_abs (value state.old.content c k) ≤ n) → (c k : ℕ) → nat_abs (value state.new.content c k) ≤ n + 2 ^ 35 }
{
    let outcome = permissible(object, state, act);
    apply(object, state, act)?;
    let same = outcome == scan(alloc, object, state)?;
    Ok(same.then_some(outcome))
}

fn some_act(random: &mut Random) -> Option<Act> {
    let method = random.below(METHODS) as u8;
    let ids = [random.below(IDS), random.below(IDS)];
    let taken = if method == SIT { 2 } else { 1 };
    Some(Act {
        method,
        args: Args::new(&ids[..taken])?,
    })
}

/// Whether a hundred acts from the opening state have the outcomes of the scan.
fn hundred_acts(
    alloc: Global,
    object: &Object,
    seed: u64,
    seen: &mut Seen,
) -> Result<bool, NoMemory> {
    let mut random = Random::of(seed);
    let mut state = State::open(alloc, object)?;
    for _ in 0u64..100 {
        let Some(act) = some_act(&mut random) else {
            return Ok(false);
        };
        if !object.args_fit(&act) {
            return Ok(false);
        }
        let Some(outcome) = one_act(alloc, object, &mut state, &act)? else {
            return Ok(false);
        };
        seen.note(outcome);
    }
    Ok(true)
}

#[test]
fn a_scan_finds_the_same_outcome(rt: HostRuntime) -> Result<(), Fail> {
    let object = read(rt.alloc(), COURSEWARE)?;
    let mut seen = Seen {
        fine: false,
        broken: [false; INVARIANTS],
    };
    for seed in 0..60 {
        assert!(rt; hundred_acts(rt.alloc(), &object, seed, &mut seen)?);
    }
    assert!(rt; seen.fine);
    assert_eq!(rt; seen.broken, [true; INVARIANTS]);
    Ok(())
}
