use crate::calls::{act, call};
use ham_lane::{AckBeyond, InLane, LaneFault, OutLane};
use ham_syntax::limits::MAX_LANE_CALLS;
use std::test::Fail;

#[test]
fn a_decided_call_is_found_by_its_number(rt: HostRuntime) -> Result<(), Fail> {
    let mut lane = OutLane::new(rt.alloc(), 3)?;
    let first = lane.append(call(rt.alloc(), 1, 1))?;
    lane.reserve()?;
    let next = lane.len() + 1;
    assert_eq!(rt; [first, next], [1, 2]);
    assert_eq!(rt; lane.call(1).map(|call| call.act), Some(act(1)));
    assert_eq!(rt; lane.call(2).map(|call| call.number), None);
    assert_eq!(rt; lane.call(0).map(|call| call.number), None);
    Ok(())
}

#[test]
fn the_greatest_acknowledged_count_stays(rt: HostRuntime) -> Result<(), Fail> {
    let mut lane = OutLane::new(rt.alloc(), 3)?;
    lane.append(call(rt.alloc(), 1, 1))?;
    assert_eq!(rt; lane.ack(3, 1), Ok(()));
    assert_eq!(rt; lane.ack(3, 0), Ok(()));
    assert_eq!(rt; lane.ack(2, 2), Err(AckBeyond { len: 1 }));
    assert_eq!(rt; [lane.acked(3), lane.acked(2)], [1, 0]);
    Ok(())
}

#[test]
fn a_full_lane_takes_no_more(rt: HostRuntime) -> Result<(), Fail> {
    let mut lane = OutLane::new(rt.alloc(), 1)?;
    for _ in 0..MAX_LANE_CALLS {
        let number = lane.len() + 1;
        lane.append(call(rt.alloc(), 0, number))?;
    }
    let number = lane.len() + 1;
    let refused = lane.append(call(rt.alloc(), 0, number));
    assert_eq!(rt; refused, Err(LaneFault::Full { max: 65_536 }));
    assert_eq!(rt; number, 65_537);
    Ok(())
}

#[test]
fn an_accepted_call_is_found_by_its_number(rt: HostRuntime) -> Result<(), Fail> {
    let mut lane = InLane::new(rt.alloc());
    lane.accept(call(rt.alloc(), 1, 1))?;
    lane.reserve()?;
    lane.accept_reserved(call(rt.alloc(), 1, 2));
    assert_eq!(rt; lane.len(), 2);
    assert_eq!(rt; lane.call(2).map(|call| call.act), Some(act(2)));
    assert_eq!(rt; lane.call(3).map(|call| call.number), None);
    Ok(())
}
