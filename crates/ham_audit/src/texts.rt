//! How faults are told.

ghost use Rattle.std.specs.Prelude.{◌≡◌, ◌++◌, IfOk, OnOk};
ghost use Rattle.std.specs.Fmt.{decimal};
ghost use Rattle.ham_audit.specs.FaultTexts as texts;

use crate::fault::AuditFault;
use ham_lists::{Bytes, NoMemory};
use ham_meaning::Outcome;
use ham_syntax::Place;
use ham_text::push_digits;
use std::alloc::Global;

/// The text of a fault: what is wrong, and where.
pub fn fault_text(alloc: Global, fault: AuditFault) -> Result<Bytes, NoMemory>
    ensures { IfOk result (λ text. text ≡ texts.fault_text fault) }
{
    match fault {
        AuditFault::BadPlace { replica, index } => told_at(alloc, b"bad place at ", replica, index),
        AuditFault::Twice { replica, index } => told_at(alloc, b"twice at ", replica, index),
        AuditFault::NotDecided { replica, index } => told_at(
            alloc,
            b"not decided at ",
            replica,
            index,
        ),
        AuditFault::Differs { replica, index } => told_at(alloc, b"differs at ", replica, index),
        AuditFault::Gap { replica, index } => told_at(alloc, b"gap at ", replica, index),
        AuditFault::Cycle { replica, index } => told_at(alloc, b"cycle at ", replica, index),
        AuditFault::Impermissible {
            replica,
            index,
            outcome,
        } => forbidden_at(alloc, replica, index, outcome),
        AuditFault::NeedLate {
            replica,
            index,
            need,
        } => late_at(alloc, replica, index, need),
        AuditFault::NoMemory => Err(NoMemory),
    }
}

fn told_at(alloc: Global, what: &[u8], replica: u8, index: u32) -> Result<Bytes, NoMemory>
    ensures { IfOk result (λ text. text ≡ texts.told_at what.now replica index) }
{
    let mut text = Bytes::of(alloc, what)?;
    push_digits(&mut text, u64::from(replica))?;
    text.push(b'.')?;
    push_digits(&mut text, u64::from(index))?;
    Ok(text)
}

fn forbidden_at(alloc: Global, replica: u8, index: u32, outcome: Outcome) -> Result<Bytes, NoMemory>
    ensures { IfOk result (λ text. text ≡ texts.fault_text (AuditFault.Impermissible replica index outcome)) }
{
    let mut text = told_at(alloc, b"impermissible at ", replica, index)?;
    push_outcome(&mut text, outcome)?;
    Ok(text)
}

fn push_outcome(text: &mut Bytes, outcome: Outcome) -> Result<(), NoMemory>
    ensures { OnOk result (text.new ≡ text.old ++ texts.outcome_text outcome) }
{
    match outcome {
        Outcome::Yes => Ok(()),
        Outcome::Guard(guard) => push_numbered(text, b" guard ", guard),
        Outcome::Invariant(invariant) => push_numbered(text, b" invariant ", invariant),
    }
}

fn push_numbered(text: &mut Bytes, what: &[u8], number: u8) -> Result<(), NoMemory>
    ensures { OnOk result (text.new ≡ text.old ++ (what.now ++ decimal number)) }
{
    text.extend(what)?;
    push_digits(text, u64::from(number))
}

fn late_at(alloc: Global, replica: u8, index: u32, need: Place) -> Result<Bytes, NoMemory>
    ensures { IfOk result (λ text. text ≡ texts.fault_text (AuditFault.NeedLate replica index need)) }
{
    let mut text = told_at(alloc, b"need late at ", replica, index)?;
    push_need(&mut text, need)?;
    Ok(text)
}

fn push_need(text: &mut Bytes, need: Place) -> Result<(), NoMemory>
    ensures { OnOk result (text.new ≡ text.old ++ texts.need_text need) }
{
    text.push(b' ')?;
    push_digits(text, u64::from(need.lane))?;
    text.push(b':')?;
    push_digits(text, u64::from(need.number))
}
