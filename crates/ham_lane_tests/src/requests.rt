use crate::calls::{act, call};
use ham_frame::{Frame, Ruling};
use ham_lane::OutLane;
use ham_resend::{Asked, Asks, Rulings, Told, VerdictFault, due_calls};
use std::test::Fail;

#[test]
fn a_request_keeps_its_first_verdict(rt: HostRuntime) -> Result<(), Fail> {
    let mut asks = Asks::new(rt.alloc(), 1)?;
    assert_eq!(rt; asks.ask(0, &act(5))?, 1);
    assert_eq!(rt; asks.verdict(0, 1), Asked::Pending);
    assert_eq!(rt; asks.on_verdict(0, 1, &Ruling::Applied(7)), Ok(Told::First));
    assert_eq!(rt; asks.on_verdict(0, 1, &Ruling::Applied(7)), Ok(Told::Again));
    let kept = Ruling::Applied(7);
    assert_eq!(rt;
        asks.on_verdict(0, 1, &Ruling::Full),
        Err(VerdictFault::Differs { kept })
    );
    assert_eq!(rt;
        asks.on_verdict(0, 2, &Ruling::Full),
        Err(VerdictFault::Unknown { len: 1 })
    );
    assert_eq!(rt;
        [asks.verdict(0, 1), asks.verdict(0, 2)],
        [Asked::Applied(7), Asked::Unknown]
    );
    Ok(())
}

#[test]
fn requests_without_a_verdict_are_due(rt: HostRuntime) -> Result<(), Fail> {
    let mut asks = Asks::new(rt.alloc(), 1)?;
    asks.ask(0, &act(5))?;
    asks.ask(0, &act(6))?;
    assert_eq!(rt; asks.len(0), 2);
    asks.on_verdict(0, 1, &Ruling::Full)?;
    let due = asks.due(0)?;
    assert_eq!(rt; due.len(), 1);
    assert_eq!(rt;
        matches!(due.first(), Some(Frame::Request { number: 2, .. })),
        true
    );
    Ok(())
}

#[test]
fn a_ruling_is_kept_under_its_number(rt: HostRuntime) -> Result<(), Fail> {
    let mut rulings = Rulings::new(rt.alloc(), 2, 1)?;
    let number = rulings.rule(2, 0, &act(5), &Ruling::Guard(1))?;
    assert_eq!(rt; [number, rulings.next(2, 0)], [1, 2]);
    assert_eq!(rt;
        rulings.kept(2, 0, 1).map(|ruled| ruled.ruling),
        Some(Ruling::Guard(1))
    );
    assert_eq!(rt; rulings.kept(2, 0, 2).map(|ruled| ruled.ruling), None);
    Ok(())
}

#[test]
fn a_ruling_goes_where_room_was_made(rt: HostRuntime) -> Result<(), Fail> {
    let mut rulings = Rulings::new(rt.alloc(), 2, 1)?;
    rulings.reserve(1, 0)?;
    rulings.rule_reserved(1, 0, &act(5), &Ruling::Full);
    assert_eq!(rt; [rulings.next(1, 0), rulings.next(2, 0)], [2, 1]);
    Ok(())
}

#[test]
fn calls_above_the_acknowledged_are_due(rt: HostRuntime) -> Result<(), Fail> {
    let mut lane = OutLane::new(rt.alloc(), 2)?;
    lane.append(call(rt.alloc(), 0, 1))?;
    let number = lane.len() + 1;
    lane.append(call(rt.alloc(), 0, number))?;
    lane.ack(2, 1)?;
    let due = due_calls(rt.alloc(), &lane, 2)?;
    assert_eq!(rt; due.len(), 1);
    Ok(())
}
