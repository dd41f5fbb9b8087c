//! Records that are read line by line.

ghost use Rattle.std.specs.Prelude.{◌≡◌, Some, IfOk};
ghost use Rattle.ham_records.specs.Drafts as drafts;

use crate::line::RecordLine;
use crate::records::{Log, Logged};
use ham_lists::{Items, NoMemory};
use std::alloc::Global;

/// What is read of records, up to a line.
#[derive(Drop)]
pub(crate) enum Draft {
    /// No line is read.
    Nothing,
    /// The opening is.
    Opened,
    /// So many replicas are announced.
    Counted(u8),
    /// Of so many replicas some have their logs, and a call may be added to the last of these.
    Filling(u8, Items<Log>, Log),
    /// The end is read.
    Whole(Items<Log>),
}

impl Draft {
    /// With one line more, if it may come next.
    #[tactic(auto, unfolding(crate::specs::Drafts::draft_with))]
    pub fn with(self, alloc: Global, line: RecordLine) -> Result<Option<Draft>, NoMemory>
        ensures { IfOk result (λ draft. draft ≡ drafts.draft_with self line) }
    {
        match self {
            Draft::Nothing => Ok(opened_with(line)),
            Draft::Opened => Ok(counted_with(line)),
            Draft::Counted(replicas) => Ok(first_with(alloc, replicas, line)),
            Draft::Filling(replicas, logs, log) => filled_with(alloc, replicas, logs, log, line),
            Draft::Whole(_) => Ok(None),
        }
    }
}

fn opened_with(line: RecordLine) -> Option<Draft>
    ensures { result ≡ drafts.opened_with line }
{
    match line {
        RecordLine::Opening => Some(Draft::Opened),
        _ => None,
    }
}

fn counted_with(line: RecordLine) -> Option<Draft>
    ensures { result ≡ drafts.counted_with line }
{
    match line {
        RecordLine::Replicas(replicas) => Some(Draft::Counted(replicas)),
        _ => None,
    }
}

fn first_with(alloc: Global, replicas: u8, line: RecordLine) -> Option<Draft>
    ensures { result ≡ drafts.first_with replicas line }
{
    match line {
        RecordLine::Replica(replica) => {
            if replica == 1 {
                Some(Draft::Filling(replicas, Items::new(alloc), Log::new(alloc)))
            } else {
                None
            }
        }
        _ => None,
    }
}

fn filled_with(
    alloc: Global,
    replicas: u8,
    logs: Items<Log>,
    log: Log,
    line: RecordLine,
) -> Result<Option<Draft>, NoMemory>
    ensures { IfOk result (λ draft. draft ≡ drafts.filled_with replicas logs log line) }
{
    match line {
        RecordLine::Call(logged) => with_call(replicas, logs, log, logged),
        RecordLine::Replica(replica) => with_replica(alloc, replicas, logs, log, replica),
        RecordLine::End => with_end(replicas, logs, log),
        _ => Ok(None),
    }
}

fn with_call(
    replicas: u8,
    logs: Items<Log>,
    mut log: Log,
    logged: Logged,
) -> Result<Option<Draft>, NoMemory>
    ensures { IfOk result (λ draft. draft ≡ drafts.with_call replicas logs log logged) }
{
    log.push(logged)?;
    Ok(Some(Draft::Filling(replicas, logs, log)))
}

fn with_replica(
    alloc: Global,
    replicas: u8,
    mut logs: Items<Log>,
    log: Log,
    replica: u8,
) -> Result<Option<Draft>, NoMemory>
    ensures { IfOk result (λ draft. draft ≡ drafts.with_replica replicas logs log replica) }
{
    if replica > replicas || logs.items().len() + 2 != replica as usize {
        return Ok(None);
    }
    logs.push(log)?;
    Ok(Some(Draft::Filling(replicas, logs, Log::new(alloc))))
}

fn with_end(replicas: u8, mut logs: Items<Log>, log: Log) -> Result<Option<Draft>, NoMemory>
    ensures { IfOk result (λ draft. draft ≡ drafts.with_end replicas logs log) }
{
    if logs.items().len() + 1 != replicas as usize {
        return Ok(None);
    }
    logs.push(log)?;
    Ok(Some(Draft::Whole(logs)))
}
