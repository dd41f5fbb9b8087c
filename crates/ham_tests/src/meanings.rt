//! Acts on the bank's state, by the calls of the state and of the meaning.

use crate::fixtures::BANK;
use ham_meaning::{Outcome, apply, invariant_holds, net, permissible};
use ham_objfile::read;
use ham_state::{Net, State, Step};
use ham_syntax::{Act, Args};
use std::test::Fail;

fn deposit_of_five() -> Act {
    let args = Args::new(&[5]).unwrap();
    Act { method: 0, args }
}

#[test]
fn an_act_is_asked_for(rt: HostRuntime) -> Result<(), Fail> {
    let bank = read(rt.alloc(), BANK)?;
    let args = Args::new(&[5]).unwrap();
    let withdraw = Act { method: 1, args };
    assert!(rt; bank.args_fit(&withdraw));
    let state = State::open(rt.alloc(), &bank)?;
    assert!(rt; permissible(&bank, &state, &withdraw) == Outcome::Invariant(0));
    Ok(())
}

#[test]
fn an_act_is_done(rt: HostRuntime) -> Result<(), Fail> {
    let bank = read(rt.alloc(), BANK)?;
    let deposit = deposit_of_five();
    assert!(rt; bank.args_fit(&deposit));
    let mut state = State::open(rt.alloc(), &bank)?;
    assert!(rt; permissible(&bank, &state, &deposit) == Outcome::Yes);
    apply(&bank, &mut state, &deposit)?;
    assert_eq!(rt; state.value(0, 0), 5);
    assert!(rt; invariant_holds(&bank, &state) == Outcome::Yes);
    Ok(())
}

#[test]
fn the_steps_of_an_act_are_its_effects(rt: HostRuntime) -> Result<(), Fail> {
    let bank = read(rt.alloc(), BANK)?;
    let args = Args::new(&[7]).unwrap();
    let withdraw = Act { method: 1, args };
    assert!(rt; bank.args_fit(&withdraw));
    let paid = Step::Change {
        counter: 0,
        key: 0,
        by: -7,
    };
    assert_eq!(rt; net(&bank, &withdraw).items(), [paid].as_slice());
    Ok(())
}

#[test]
fn a_net_is_applied_whole(rt: HostRuntime) -> Result<(), Fail> {
    let bank = read(rt.alloc(), BANK)?;
    let mut state = State::open(rt.alloc(), &bank)?;
    let steps = [
        Step::Change {
            counter: 0,
            key: 3,
            by: 2,
        },
        Step::Change {
            counter: 0,
            key: 1,
            by: -4,
        },
        Step::Change {
            counter: 0,
            key: 3,
            by: -2,
        },
    ];
    let net = Net::new(&steps).unwrap();
    state.apply_net(&net)?;
    assert_eq!(rt; state.value(0, 1), -4);
    assert_eq!(rt; state.value(0, 3), 0);
    assert_eq!(rt; invariant_holds(&bank, &state), Outcome::Invariant(0));
    Ok(())
}
