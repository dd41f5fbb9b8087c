//! Lines of schedules that are read and printed.

use crate::objects::shop;
use ham_grammar::{print_line, read_line};
use std::test::Fail;

/// Lines in their canonical spelling, with the least and the greatest numbers, counts and lists.
const LINES: [&str; 8] = [
    "replicas 8",
    "issue 1 deposit 1 2 3 4 5 6",
    "deliver 0 18446744073709551615 0",
    "pieces 1 2 3 4 5 9",
    "torn 1 2 1 18",
    "show 2 stock 0",
    "verdict 2 300 1",
    "compare 1 2",
];

#[test]
fn a_line_that_is_read_is_printed_as_it_was(rt: HostRuntime) -> Result<(), Fail> {
    let object = shop(rt.alloc())?;
    for text in LINES {
        let line = read_line(rt.alloc(), &object, text.as_bytes())?;
        let printed = print_line(rt.alloc(), &object, &line)?;
        assert!(rt; printed.items() == text.as_bytes());
    }
    Ok(())
}
