//! Lines of clients.

use crate::objects::shop;
use ham_lines::{ClientLine, LineFault, read_client};
use ham_syntax::{Act, Args};
use std::test::Fail;

#[test]
fn clients_issue_and_ask(rt: HostRuntime) -> Result<(), Fail> {
    let object = shop(rt.alloc())?;
    let args = Args::new(&[5]).unwrap();
    let act = Act { method: 0, args };
    let cases = [
        (" issue  deposit 5", ClientLine::Issue(act)),
        ("show balance", ClientLine::Show { counter: 0, key: 0 }),
        ("show stock 7", ClientLine::Show { counter: 1, key: 7 }),
        ("rows student", ClientLine::Rows { relation: 0 }),
        (
            "verdict 32 65537",
            ClientLine::Verdict {
                group: 32,
                number: 65_537,
            },
        ),
        ("log", ClientLine::Log),
        ("counts", ClientLine::Counts),
        ("record", ClientLine::Record),
        ("quit", ClientLine::Quit),
        ("stop ", ClientLine::Stop),
    ];
    for (text, wanted) in cases {
        assert!(rt; read_client(&object, text.as_bytes()) == Ok(wanted));
    }
    Ok(())
}

/// Lines that are refused: where several reasons seem to fit, for the first.
const REFUSED: [(&str, LineFault); 8] = [
    ("", LineFault::NotALine),
    ("log\r", LineFault::NotALine),
    ("issue nobody 1 2 3 4 5 6 7", LineFault::NotALine),
    ("issue nobody 1 2 3 4 5 6", LineFault::UnknownName),
    ("show nobody x", LineFault::NotALine),
    ("show stock", LineFault::BadKey),
    ("show balance 0", LineFault::BadKey),
    ("verdict 0 18446744073709551616", LineFault::NotALine),
];

#[test]
fn a_client_is_refused_for_the_first_reason(rt: HostRuntime) -> Result<(), Fail> {
    let object = shop(rt.alloc())?;
    for (text, wanted) in REFUSED {
        assert!(rt; read_client(&object, text.as_bytes()) == Err(wanted));
    }
    Ok(())
}
