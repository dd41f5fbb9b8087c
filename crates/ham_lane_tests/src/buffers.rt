use crate::calls::call;
use ham_buffer::{Buffer, Put, Wait, Waits};
use ham_syntax::Place;
use std::test::Fail;

const FIRST: Place = Place { lane: 1, number: 1 };

#[test]
fn a_call_waits_until_its_counts_are_logged(rt: HostRuntime) -> Result<(), Fail> {
    let mut buffer = Buffer::new(rt.alloc(), 2, 2);
    let mut waits = Waits::new(rt.alloc());
    waits.push(Wait { slot: 0, count: 1 })?;
    assert_eq!(rt; buffer.put(call(rt.alloc(), 1, 1), waits)?, Put::Fresh);
    assert_eq!(rt; buffer.is_settled(&[0, 0], &[0, 0]), true);
    assert_eq!(rt; buffer.next_ready(&[0, 0], &[0, 0]), None);
    assert_eq!(rt; buffer.next_ready(&[0, 0], &[1, 0]), Some(FIRST));
    Ok(())
}

#[test]
fn the_ready_call_of_the_least_lane_is_taken_out(rt: HostRuntime) -> Result<(), Fail> {
    let mut buffer = Buffer::new(rt.alloc(), 2, 1);
    let none = Waits::new(rt.alloc());
    buffer.put(call(rt.alloc(), 1, 1), none)?;
    let none = Waits::new(rt.alloc());
    buffer.put(call(rt.alloc(), 0, 3), none)?;
    let again = Waits::new(rt.alloc());
    assert_eq!(rt; buffer.put(call(rt.alloc(), 1, 1), again)?, Put::Repeat);
    let first = buffer.take_ready(&[2, 0], &[0]);
    assert_eq!(rt; first.map(|call| call.number), Some(3));
    assert_eq!(rt; buffer.kept(&FIRST).map(|call| call.number), Some(1));
    assert_eq!(rt; buffer.take(&FIRST).map(|call| call.number), Some(1));
    assert_eq!(rt; buffer.take(&FIRST).map(|call| call.number), None);
    Ok(())
}
