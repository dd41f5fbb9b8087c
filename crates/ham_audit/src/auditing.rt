//! The audit of records.

ghost use Rattle.std.specs.Prelude.{◌≡◌, ℕ, ◌+◌, ◌-◌, ◌^◌, ◌<◌, ◌≤◌, ◌==◌, ◌&&◌, not, length, All, IfOk, OnOk};
ghost use Rattle.ham_laws.specs.Constrained.{IsPlanned};
ghost use Rattle.ham_turns.specs.Settings.{rules_of, setting_of, IsReplica};
ghost use Rattle.ham_site.specs.Sites.{rules_at, setting_at};
ghost use Rattle.ham_audit.specs.Claims.{IsRecorded, IsAnswer, IsSound};
ghost use Rattle.ham_audit.specs.Faults as faults;
ghost use Rattle.ham_audit.specs.Order.{order, taken_after};
ghost use Rattle.ham_audit.specs.Records.{log_of, stands};
ghost use Rattle.ham_audit.specs.Passing.{IsUnder, IsAt};
ghost use Rattle.ham_audit.specs.Lateness.{IsNeeding};

use crate::fault::AuditFault;
use crate::firsts::IndexedLog;
use crate::laws::faultless_records_are_sound;
use crate::needs::need_fault;
use crate::order::{Progress, is_taken, take_all};
use crate::positions::{indexed, place_fault};
use ham_lists::NoMemory;
use ham_plan::Plan;
use ham_records::{Logged, Records};
use ham_runs::laws::plans_are_settings;
use ham_site::Site;
use ham_syntax::Object;
use std::alloc::Global;

/// Whether the replica decides a call of its log, and the call is not taken.
fn is_left(
    site: &Site,
    logs: &[IndexedLog],
    progress: &Progress,
    replica: u8,
    logged: &Logged,
) -> bool
    requires under { IsUnder site.now logs.now }
    requires at { IsAt site.now logs.now progress.now }
    requires lane { logged.now.place.lane < (setting_at site.now).lanes }
    ensures { result ≡ (((setting_at site.now).decider logged.now.place.lane == replica) && not (stands logged.now.place (taken_after (setting_at site.now) logs.now progress.now.count))) }
{
    site.decider_of(logged.place.lane) == replica && !is_taken(site, logs, progress, logged.place)
}

/// The first call of a replica's log that the replica decides and that is not taken.
fn left_in(site: &Site, logs: &[IndexedLog], progress: &Progress, replica: u8) -> Option<AuditFault>
    requires under { IsUnder site.now logs.now }
    requires at { IsAt site.now logs.now progress.now }
    requires replica { IsReplica (setting_at site.now) replica }
    ensures { result ≡ faults.left_along (setting_at site.now) (taken_after (setting_at site.now) logs.now progress.now.count) replica 1 (log_of logs.now replica) }
{
    let _me = site.me();
    let log = logs[replica as usize - 1].log();
    for (i, logged) in log.iter().enumerate() {
        if is_left(site, logs, progress, replica, logged) {
            return Some(AuditFault::Cycle {
                replica,
                index: i as u32 + 1,
            });
        }
    }
    None
}

/// Where the order of decision stops before every call is taken.
fn cycle_fault(site: &Site, logs: &[IndexedLog], progress: &Progress) -> Option<AuditFault>
    requires under { IsUnder site.now logs.now }
    requires at { IsAt site.now logs.now progress.now }
    requires all { taken_after (setting_at site.now) logs.now progress.now.count ≡ order (setting_at site.now) logs.now }
    ensures { result ≡ faults.cycle_fault (setting_at site.now) logs.now }
{
    let _me = site.me();
    for replica in 1..site.replicas() + 1 {
        let fault = left_in(site, logs, progress, replica);
        if fault.is_some() {
            return fault;
        }
    }
    None
}

/// The first fault past positions: where the order stops, then a call that was not permissible, then a need that is late.
fn later_fault(
    alloc: Global,
    site: &Site,
    plan: &Plan,
    logs: &[IndexedLog],
    progress: &Progress,
) -> Result<Option<AuditFault>, NoMemory>
    requires under { IsUnder site.now logs.now }
    requires at { IsAt site.now logs.now progress.now }
    requires all { taken_after (setting_at site.now) logs.now progress.now.count ≡ order (setting_at site.now) logs.now }
    requires plan { plan.now ≡ site.now.plan }
    requires planned { IsNeeding site.now }
    ensures { IfOk result (λ fault. fault ≡ faults.later_fault (rules_at site.now) (setting_at site.now) logs.now) }
{
    let fault = cycle_fault(site, logs, progress).or(progress.forbidden);
    if fault.is_some() {
        return Ok(fault);
    }
    need_fault(alloc, site, plan, logs)
}

/// The number of decided calls, or the first fault.
fn audit_logs(
    alloc: Global,
    site: &Site,
    plan: &Plan,
    logs: &[IndexedLog],
) -> Result<u32, AuditFault>
    requires recorded { IsRecorded (rules_at site.now) (setting_at site.now) logs.now }
    requires few { All (λ log. length log < 2 ^ 32 - 1) logs.now }
    requires plan { plan.now ≡ site.now.plan }
    requires planned { IsNeeding site.now }
    ensures { IsAnswer (rules_at site.now) (setting_at site.now) logs.now result }
{
    let _me = site.me();
    if let Some(fault) = place_fault(site, logs) {
        return Err(fault);
    }
    let progress = take_all(alloc, site, logs)?;
    match later_fault(alloc, site, plan, logs, &progress)? {
        Some(fault) => Err(fault),
        None => Ok(progress.count),
    }
}

/// Whether the records' logs could be those of replicas that coordinate well: the number of decided calls, or the first
/// fault. Positions are looked at first, replica by replica, then the order of decision, then whether each call was
/// permissible where it was decided, then whether each stands after what it needs.
pub fn audit(
    alloc: Global,
    object: &Object,
    plan: &Plan,
    records: &Records,
) -> Result<u32, AuditFault>
    requires planned { IsPlanned object.now plan.now }
    requires recorded { IsRecorded (rules_of object.now) (setting_of plan.now) records.now }
    ensures answer { IsAnswer (rules_of object.now) (setting_of plan.now) records.now result }
    ensures sound { OnOk result (IsSound (rules_of object.now) (setting_of plan.now) records.now) }
{
    faultless_records_are_sound();
    plans_are_settings();
    let _replicas = records.replicas();
    let site = Site::new(alloc, object, plan, 1)?;
    let logs = indexed(alloc, records.logs())?;
    audit_logs(alloc, &site, plan, logs.items())
}
