//! The command `audit OBJECT FILE`.

ghost use Rattle.std.specs.Prelude.{◌≡◌, false, IfOk};
ghost use Rattle.ham_cli.specs.AuditAnswers as answers;
ghost use Rattle.ham_cli.specs.Told.{IsTold, IsEnd};

use crate::exit::Exit;
use crate::laws::derived_plans_have_one_setting;
use crate::writes::{Answer, refusal_line};
use ham_audit::laws::texts_are_recorded;
use ham_audit::{AuditFault, AuditText, Records, audit, fault_text, read};
use ham_plan::Plan;
use ham_syntax::{Bytes, NoMemory, Object};
use ham_tables::laws::derived_plans_are_sound;
use ham_tables::plan_of;
use ham_text::push_digits;
use std::alloc::Global;

/// The most bytes of a file of records.
pub(crate) const MAX_RECORDS_BYTES: u64 = 67_108_864;

/// Why records are refused.
#[derive(Clone, Copy, Debug, PartialEq, Eq, Drop)]
pub enum AuditRefusal {
    /// This line, from 1, is the first that is none of a text of records.
    BadLine { line: u64 },
    /// The first fault.
    Fault(AuditFault),
}

impl AuditRefusal {
    /// The answer that tells it.
    fn answer(self, alloc: Global) -> Result<Answer, NoMemory>
        ensures answer { IfOk result (λ a. IsTold Exit.AuditRefused (answers.audit_refusal self) a.exit a.text) }
        ensures end { IfOk result (λ a. IsEnd a.exit) }
    {
        let exit = Exit::AuditRefused;
        let text = self.line(alloc)?;
        Ok(Answer { exit, text })
    }

    /// The line that tells it.
    fn line(self, alloc: Global) -> Result<Bytes, NoMemory>
        ensures { IfOk result (λ line. line ≡ answers.audit_refusal self) }
    {
        let why = self.reason(alloc)?;
        refusal_line(alloc, b"audit refused: ", why.items())
    }

    fn reason(self, alloc: Global) -> Result<Bytes, NoMemory>
        ensures { IfOk result (λ text. text ≡ answers.reason_text self) }
    {
        match self {
            AuditRefusal::BadLine { line } => bad_line(alloc, line),
            AuditRefusal::Fault(fault) => fault_text(alloc, fault),
        }
    }
}

fn bad_line(alloc: Global, line: u64) -> Result<Bytes, NoMemory>
    ensures { IfOk result (λ text. text ≡ answers.bad_line_text line) }
{
    let mut text = Bytes::of(alloc, b"bad line ")?;
    push_digits(&mut text, line)?;
    Ok(text)
}

/// How many calls were decided in the records that the bytes are the text of, or why they are refused.
pub(crate) fn audit_text(alloc: Global, object: &Object, bytes: &[u8]) -> Result<Answer, NoMemory>
    ensures answer { IfOk result (λ a. answers.AnswersAudit object.now bytes.now a.exit a.text) }
    ensures end { IfOk result (λ a. IsEnd a.exit) }
{
    match audit_bytes(alloc, object, bytes)? {
        Ok(count) => {
            let text = ok_line(alloc, count)?;
            Ok(Answer::done(text))
        }
        Err(why) => why.answer(alloc),
    }
}

/// `ok` and how many calls were decided.
fn ok_line(alloc: Global, count: u32) -> Result<Bytes, NoMemory>
    ensures { IfOk result (λ line. line ≡ answers.ok_line count) }
{
    let mut line = Bytes::of(alloc, b"ok ")?;
    push_digits(&mut line, u64::from(count))?;
    line.push(b'\n')?;
    Ok(line)
}

/// How many calls were decided in the records that the bytes are the text of, or why they are refused.
fn audit_bytes(
    alloc: Global,
    object: &Object,
    bytes: &[u8],
) -> Result<Result<u32, AuditRefusal>, NoMemory>
    ensures { IfOk result (λ found. answers.IsVerdict object.now bytes.now found) }
{
    let records = match read(alloc, object, bytes) {
        Ok(records) => records,
        Err(AuditText::BadLine { line }) => return Ok(Err(AuditRefusal::BadLine { line })),
        Err(AuditText::NoMemory) => return Err(NoMemory),
    };
    match audit_records(alloc, object, &records) {
        Ok(count) => Ok(Ok(count)),
        Err(fault) => Ok(Err(refusal_of(fault)?)),
    }
}

/// The derived plan for the records' replicas.
fn plan_for(object: &Object, records: &Records) -> Plan
    ensures { answers.PlansFor object.now records.now result }
{
    derived_plans_are_sound();
    let _methods = object.methods();
    plan_of(object, records.replicas())
}

/// Audits records of the object under its derived plan.
fn audit_records(alloc: Global, object: &Object, records: &Records) -> Result<u32, AuditFault>
    requires { answers.IsSpelled object.now records.now }
    ensures { answers.AnswersRecords object.now records.now result }
{
    derived_plans_have_one_setting();
    texts_are_recorded();
    let plan = plan_for(object, records);
    audit(alloc, object, &plan, records)
}

/// A fault is why records are refused, unless memory ran out.
fn refusal_of(fault: AuditFault) -> Result<AuditRefusal, NoMemory>
    ensures { IfOk result (λ why. (why ≡ AuditRefusal.Fault fault) × (answers.is_no_memory fault ≡ false)) }
{
    match fault {
        AuditFault::NoMemory => Err(NoMemory),
        _ => Ok(AuditRefusal::Fault(fault)),
    }
}
