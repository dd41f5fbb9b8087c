//! A fetch or a put that fails, at each place of one run.

ghost use Rattle.std.specs.Prelude.{◌<◌};

use crate::fixtures::{BANK, shelf_of, words_of};
use ham_bytes::MemSink;
use ham_cli::{Exit, run};
use std::alloc::Global;
use std::test::Fail;

const SCHEDULE: &[u8] =
    b"replicas 1\nissue 1 deposit 5\nissue 1 withdraw 7\nissue 1 withdraw 5\nshow 1 balance\n";

const TEXT: &[u8] =
    b"replicas 1\napplied +1:1\nimpermissible invariant 0\napplied +0:1\nvalue 0\nend\n";

/// The exit of the run, and what was taken, where these calls of the shelf and the sink fail.
fn run_failing(alloc: Global, most: usize, fetch: u64, put: u64) -> Result<(Exit, MemSink), Fail>
    requires { 0 < most }
{
    let words = words_of(alloc, &[b"replay", b"bank", b"plan"])?;
    let mut shelf = shelf_of(alloc, BANK, SCHEDULE)?;
    shelf.fail(fetch)?;
    let mut sink = MemSink::new(alloc, 1000, most)?;
    sink.fail(put)?;
    let exit = run(alloc, &words, &mut shelf, &mut sink);
    Ok((exit, sink))
}

#[test]
fn each_fetch_that_fails_is_a_read_fault_and_writes_nothing(rt: HostRuntime) -> Result<(), Fail> {
    for fetch in [1u64, 2] {
        let (exit, sink) = run_failing(rt.alloc(), 16, fetch, 0)?;
        assert_eq!(rt; exit, Exit::ReadFault);
        assert_eq!(rt; sink.taken(), b"".as_slice());
    }
    let (exit, sink) = run_failing(rt.alloc(), 16, 3, 0)?;
    assert_eq!(rt; exit, Exit::Done);
    assert_eq!(rt; sink.taken(), TEXT);
    Ok(())
}

#[test]
fn each_put_that_fails_is_a_write_fault_after_a_front_of_the_text(
    rt: HostRuntime,
) -> Result<(), Fail> {
    for (put, taken) in [(1u64, 0usize), (2, 16), (3, 32), (4, 48), (5, 64)] {
        let (exit, sink) = run_failing(rt.alloc(), 16, 0, put)?;
        assert_eq!(rt; exit, Exit::WriteFault);
        assert_eq!(rt; sink.taken(), &TEXT[..taken]);
    }
    let (exit, sink) = run_failing(rt.alloc(), 16, 0, 6)?;
    assert_eq!(rt; exit, Exit::Done);
    assert_eq!(rt; sink.taken(), TEXT);
    Ok(())
}

#[test]
fn a_sink_that_fails_at_its_second_put_took_eight_bytes_at_most(
    rt: HostRuntime,
) -> Result<(), Fail> {
    let (exit, sink) = run_failing(rt.alloc(), 8, 0, 2)?;
    assert_eq!(rt; exit, Exit::WriteFault);
    assert_eq!(rt; sink.taken(), &TEXT[..8]);
    Ok(())
}
