//! Faults at positions: places, and acts.

ghost use Rattle.std.specs.Prelude.{◌≡◌, ℕ, ◌+◌, ◌-◌, ◌^◌, ◌<◌, ◌≤◌, length, take, slice_index, All, IfOk, []};
ghost use Rattle.ham_turns.specs.Settings.{IsReplica};
ghost use Rattle.ham_turns.specs.Words.{in_lane};
ghost use Rattle.ham_turns.specs.Refusals.{same_act};
ghost use Rattle.ham_plan.specs.Lists.{In};
ghost use Rattle.ham_syntax.specs.declared.act.Act.{Act};
ghost use Rattle.ham_site.specs.Sites.{rules_at, setting_at};
ghost use Rattle.ham_records.specs.declared.records.Logged.{Logged};
ghost use Rattle.ham_audit.specs.Faults as faults;
ghost use Rattle.ham_audit.specs.Indexed.{fault_by_act};
ghost use Rattle.ham_audit.specs.Records.{log_of, places};

use crate::fault::AuditFault;
use crate::firsts::IndexedLog;
use ham_lists::{Items, NoMemory};
use ham_records::{Log, Logged};
use ham_site::Site;
use ham_syntax::limits::{MAX_LANE_CALLS, MAX_LANES};
use ham_syntax::{Act, Place};
use std::alloc::Global;

/// Whether the lane is in the plan and the method's, and the number is one that a lane has.
fn has_place(site: &Site, logged: &Logged) -> bool
    requires { logged.now.act.method < (setting_at site.now).methods }
    ensures { result ≡ faults.has_place MAX_LANE_CALLS (setting_at site.now) logged.now }
{
    let _me = site.me();
    let place = logged.place;
    if u16::from(place.lane) >= site.lanes() {
        return false;
    }
    let decider = site.decider_of(place.lane);
    site.lane_of(logged.act.method, decider) == place.lane
        && 0 < place.number
        && place.number as usize <= MAX_LANE_CALLS
}

/// Whether the call is decided elsewhere, or its number is the next of its lane, of which so many calls precede it.
fn is_next(site: &Site, replica: u8, count: u32, place: Place) -> bool
    requires lane { place.lane < (setting_at site.now).lanes }
    requires count { count < 2 ^ 32 - 1 }
    ensures { (act : Act) → result ≡ faults.is_next (setting_at site.now) replica count (record { place = place; act = act }) }
{
    site.decider_of(place.lane) != replica || place.number == count + 1
}

fn same_act(act: &Act, other: &Act) -> bool
    ensures { result ≡ same_act act.now other.now }
{
    act.method == other.method && act.args.items() == other.args.items()
}

/// What is wrong with a call, by the act of the deciding replica's first call of its place.
fn fault_by_act(
    logged: &Logged,
    decided: Option<Act>,
    replica: u8,
    index: u32,
    next: bool,
) -> Option<AuditFault>
    ensures { result ≡ fault_by_act replica index next logged.now.act decided }
{
    match decided {
        None => Some(AuditFault::NotDecided { replica, index }),
        Some(act) => {
            if !same_act(&logged.act, &act) {
                Some(AuditFault::Differs { replica, index })
            } else if !next {
                Some(AuditFault::Gap { replica, index })
            } else {
                None
            }
        }
    }
}

/// The fault of a call at its position, where `count` calls of its lane precede it.
fn fault_at(
    site: &Site,
    logs: &[IndexedLog],
    replica: u8,
    index: usize,
    logged: &Logged,
    count: u32,
) -> Option<AuditFault>
    requires method { logged.now.act.method < (setting_at site.now).methods }
    requires first { 0 < replica }
    requires last { replica ≤ length logs.now }
    requires replicas { length logs.now ≡ (setting_at site.now).replicas }
    requires within { index < length (log_of logs.now replica) }
    requires few { length (log_of logs.now replica) < 2 ^ 32 - 1 }
    requires count { count ≡ faults.lane_count (take index (log_of logs.now replica)) logged.now.place.lane }
    ensures { result ≡ faults.fault_at (rules_at site.now) (setting_at site.now) logs.now replica (take index (log_of logs.now replica)) logged.now }
{
    let _me = site.me();
    let place = logged.place;
    let position = index as u32 + 1;
    if !has_place(site, logged) {
        return Some(AuditFault::BadPlace {
            replica,
            index: position,
        });
    }
    if logs[replica as usize - 1].stands_before(place, index) {
        return Some(AuditFault::Twice {
            replica,
            index: position,
        });
    }
    let next = is_next(site, replica, count, place);
    let decider = site.decider_of(place.lane);
    fault_by_act(
        logged,
        logs[decider as usize - 1].act_of(place),
        replica,
        position,
        next,
    )
}

/// A count of 0 for each lane.
pub fn no_counts() -> [u32; MAX_LANES]
    ensures size { length result ≡ MAX_LANES }
    ensures none { (k : ℕ) → k < MAX_LANES → slice_index result k ≡ 0 }
{
    [0; MAX_LANES]
}

/// The first fault among the positions of a replica's log.
pub fn log_fault(site: &Site, logs: &[IndexedLog], replica: u8) -> Option<AuditFault>
    requires methods { (r : ℕ) (e : Logged) → In e (log_of logs.now r) → e.act.method < (setting_at site.now).methods }
    requires first { 0 < replica }
    requires last { replica ≤ length logs.now }
    requires replicas { length logs.now ≡ (setting_at site.now).replicas }
    requires few { length (log_of logs.now replica) < 2 ^ 32 - 1 }
    ensures { result ≡ faults.fault_along (rules_at site.now) (setting_at site.now) logs.now replica [] (log_of logs.now replica) }
{
    let mut counts = no_counts();
    let log = logs[replica as usize - 1].log();
    for (i, logged) in log.iter().enumerate() {
        let lane = logged.place.lane as usize;
        let fault = fault_at(site, logs, replica, i, logged, counts[lane]);
        if fault.is_some() {
            return fault;
        }
        counts[lane] += 1;
    }
    None
}

/// The first fault among the positions of all logs.
pub fn place_fault(site: &Site, logs: &[IndexedLog]) -> Option<AuditFault>
    requires methods { (r : ℕ) (e : Logged) → In e (log_of logs.now r) → e.act.method < (setting_at site.now).methods }
    requires replicas { length logs.now ≡ (setting_at site.now).replicas }
    requires few { (r : ℕ) → length (log_of logs.now r) < 2 ^ 32 - 1 }
    ensures { result ≡ faults.place_fault (rules_at site.now) (setting_at site.now) logs.now }
{
    let _me = site.me();
    for replica in 1..site.replicas() + 1 {
        let fault = log_fault(site, logs, replica);
        if fault.is_some() {
            return fault;
        }
    }
    None
}

/// The logs, each with its index.
pub fn indexed<'a>(alloc: Global, logs: &'a [Log]) -> Result<Items<IndexedLog<'a>>, NoMemory>
    ensures logs { IfOk result (λ indexed. indexed ≡ logs.entry.now) }
    ensures few { IfOk result (λ indexed. All (λ log. length log < 2 ^ 32 - 1) indexed) }
{
    let mut indexed = Items::new(alloc);
    for log in logs {
        indexed.push(IndexedLog::of(alloc, log.calls())?)?;
    }
    Ok(indexed)
}
