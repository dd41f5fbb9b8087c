//! An object to read lines with.

use ham_check::check_object;
use ham_plain::read_plain;
use ham_syntax::Object;
use std::alloc::Global;
use std::test::Fail;

const SHOP: &str = "hamsaz object 1
relation student 1
counter balance plain
counter stock keyed
invariant low balance 0
method deposit
param a amount
effect add balance a
method withdraw
param a amount
effect subtract balance a
method addStudent
param s id
effect insert student s
end
";

/// A bank with a keyed counter and a relation besides.
pub fn shop(alloc: Global) -> Result<Object, Fail> {
    let raw = read_plain(alloc, SHOP.as_bytes())?;
    Ok(check_object(alloc, &raw)?)
}
