//! States made of steps: what is there, and in what order it comes out.

ghost use Rattle.std.specs.Prelude.{◌≡◌, ◌^◌, ◌≤◌, nat_abs, length, IfOk};
ghost use Rattle.std.specs.List.{AllByRecursion};
ghost use Rattle.ham_state.specs.Content.{opening};
ghost use Rattle.ham_state.specs.Steps.{after_steps, IsWithin};

use ham_check::{Raw, check_object};
use ham_state::{Net, Row, State, Step};
use ham_syntax::{Items, Term, Terms};
use std::alloc::Global;
use std::test::Fail;

/// The opening state of an object of nothing.
fn opening_state(alloc: Global) -> Result<State, Fail>
    ensures { IfOk result (λ state. state.content ≡ opening) }
{
    let raw = Raw {
        relations: Items::new(alloc),
        counters: Items::new(alloc),
        invariants: Items::new(alloc),
        methods: Items::new(alloc),
    };
    let object = check_object(alloc, &raw)?;
    Ok(State::open(alloc, &object)?)
}

/// What the steps make of the opening state.
fn made(alloc: Global, steps: &[Step]) -> Result<State, Fail>
    requires few { length steps.now ≤ 8 }
    requires small { AllByRecursion (IsWithin (2 ^ 50)) steps.now }
    ensures { IfOk result (λ state. state.content ≡ after_steps steps.now opening) }
{
    let mut state = opening_state(alloc)?;
    state.apply_net(&Net::new(steps).unwrap())?;
    Ok(state)
}

fn row(ids: [u64; 2]) -> Row {
    Row::new(&ids).unwrap()
}

fn insert(relation: u8, ids: [u64; 2]) -> Step
    ensures { IsWithin (2 ^ 50) result }
{
    Step::Insert {
        relation,
        row: row(ids),
    }
}

fn change(counter: u8, key: u64, by: i128) -> Step
    requires { nat_abs by ≤ 2 ^ 50 }
    ensures { IsWithin (2 ^ 50) result }
{
    Step::Change { counter, key, by }
}

fn terms(pattern: [Term; 2]) -> Terms {
    Terms::new(&pattern).unwrap()
}

fn delete(relation: u8, pattern: [Term; 2]) -> Step
    ensures { IsWithin (2 ^ 50) result }
{
    Step::Delete {
        relation,
        pattern: terms(pattern),
    }
}

#[test]
fn steps_are_taken_in_order(rt: HostRuntime) -> Result<(), Fail> {
    let mut state = opening_state(rt.alloc())?;
    let gone = terms([Term::Const(4), Term::Any]);
    let net = [
        insert(1, [4, 5]),
        change(0, 8, 30),
        change(0, 8, -50),
        delete(2, [Term::Const(4), Term::Any]),
    ];
    state.apply_net(&Net::new(&net).unwrap())?;
    assert!(rt; state.has(1, &gone));
    assert!(rt; !state.has(2, &gone));
    let one_column = Terms::new(&[Term::Any]).unwrap();
    assert!(rt; !state.has(1, &one_column));
    assert_eq!(rt; state.value(0, 8), -20);
    assert_eq!(rt; state.value(0, 9), 0);
    Ok(())
}

#[test]
fn rows_come_out_ascending(rt: HostRuntime) -> Result<(), Fail> {
    let steps = [
        insert(1, [9, 1]),
        insert(1, [6, 3]),
        insert(1, [4, 7]),
        insert(2, [5, 5]),
        insert(1, [6, 2]),
        insert(0, [8, 8]),
        insert(1, [4, 7]),
    ];
    let state = made(rt.alloc(), &steps)?;
    let expected = [row([4, 7]), row([6, 2]), row([6, 3]), row([9, 1])];
    assert_eq!(rt; state.rows(rt.alloc(), 1)?.items(), expected.as_slice());
    assert_eq!(rt;
        state.rows(rt.alloc(), 2)?.items(),
        [row([5, 5])].as_slice()
    );
    assert!(rt; state.rows(rt.alloc(), 3)?.items().is_empty());
    assert!(rt; state.has(1, &terms([Term::Const(9), Term::Const(1)])));
    assert!(rt; !state.has(2, &terms([Term::Const(9), Term::Const(1)])));
    assert!(rt; state.has(0, &terms([Term::Any, Term::Const(8)])));
    Ok(())
}

#[test]
fn deletes_take_what_they_match(rt: HostRuntime) -> Result<(), Fail> {
    let steps = [
        insert(1, [9, 1]),
        insert(1, [6, 3]),
        insert(1, [6, 2]),
        insert(1, [4, 7]),
        insert(2, [6, 3]),
        delete(1, [Term::Const(6), Term::Any]),
        delete(1, [Term::Const(9), Term::Const(1)]),
        delete(1, [Term::Const(9), Term::Const(2)]),
    ];
    let state = made(rt.alloc(), &steps)?;
    assert_eq!(rt;
        state.rows(rt.alloc(), 1)?.items(),
        [row([4, 7])].as_slice()
    );
    assert_eq!(rt;
        state.rows(rt.alloc(), 2)?.items(),
        [row([6, 3])].as_slice()
    );
    Ok(())
}

#[test]
fn amounts_are_sums_at_their_keys(rt: HostRuntime) -> Result<(), Fail> {
    let steps = [
        change(3, 1, 5),
        change(0, 9, 2),
        change(0, 4, 7),
        change(0, 5, 0),
        change(3, 1, -5),
        change(0, 9, -3),
    ];
    let state = made(rt.alloc(), &steps)?;
    assert_eq!(rt; state.value(3, 1), 0);
    assert_eq!(rt; state.value(0, 9), -1);
    assert_eq!(rt; state.value(0, 4), 7);
    assert!(rt; state.equal(&made(rt.alloc(), &[change(0, 9, -1), change(0, 4, 7)])?));
    Ok(())
}

#[test]
fn equal_states_are_made_in_any_order(rt: HostRuntime) -> Result<(), Fail> {
    let state = made(
        rt.alloc(),
        &[insert(1, [9, 1]), insert(0, [6, 3]), change(0, 8, 3)],
    )?;
    let turned = [
        change(0, 8, 1),
        insert(0, [6, 3]),
        change(2, 2, 6),
        insert(1, [9, 1]),
        change(0, 8, 2),
        change(2, 2, -6),
    ];
    assert!(rt; state.equal(&made(rt.alloc(), &turned)?));
    let fewer_rows = made(rt.alloc(), &[insert(1, [9, 1]), change(0, 8, 3)])?;
    assert!(rt; !state.equal(&fewer_rows));
    let other_amount = made(
        rt.alloc(),
        &[insert(1, [9, 1]), insert(0, [6, 3]), change(0, 8, 4)],
    )?;
    assert!(rt; !state.equal(&other_amount));
    Ok(())
}
