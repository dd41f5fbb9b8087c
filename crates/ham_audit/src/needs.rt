//! Calls that stand before what they need.

ghost use Rattle.std.specs.Prelude.{◌≡◌, ◌<◌, ◌≤◌, ◌&&◌, not, [], Some, take, slice_index, slice_get, All, IfOk, IsTrue};
ghost use Rattle.ham_turns.specs.Settings.{IsReplica};
ghost use Rattle.ham_site.specs.Sites.{rules_at, setting_at};
ghost use Rattle.ham_syntax.specs.declared.act.Place.{Place};
ghost use Rattle.ham_audit.specs.Faults as faults;
ghost use Rattle.ham_audit.specs.Records.{log_of, places, stands};
ghost use Rattle.ham_audit.specs.Order.{audited};
ghost use Rattle.ham_audit.specs.Lateness.{need_between, IsIn, IsNeeding, AreAllFronts, HasFirst, counted, late_here};
ghost use Rattle.ham_audit.specs.Passing.{IsUnder};

use crate::fault::AuditFault;
use crate::firsts::IndexedLog;
use crate::fronts::fronts_of;
use crate::positions::no_counts;
use ham_lists::{Items, NoMemory};
use ham_plan::Plan;
use ham_records::Logged;
use ham_site::Site;
use ham_syntax::limits::MAX_LANES;
use ham_syntax::{Place, Places};
use std::alloc::Global;

/// Whether all the places are within the counts of their lanes.
fn are_within(counts: &[u32; MAX_LANES], reached: &[Place]) -> bool
    ensures { IsTrue result → All (λ p. p.number ≤ slice_index counts.now p.lane) reached.now }
{
    for place in reached {
        if place.number > counts[place.lane as usize] {
            return false;
        }
    }
    true
}

/// Whether a call needs another, if that precedes it where it was decided.
fn is_need(plan: &Plan, call: &Logged, other: &Logged) -> bool
    requires call { call.now.act.method < plan.now.methods }
    requires other { other.now.act.method < plan.now.methods }
    ensures { result ≡ need_between plan.now call.now other.now }
{
    let (method, before) = (call.act.method, other.act.method);
    other.place.lane == call.place.lane
        || plan.conflicts(before, method)
        || plan.depends(method, before)
}

/// Whether a call needs another that precedes it where it was decided, and that doesn't stand among the first `index` of
/// the replica's log.
fn is_late(
    site: &Site,
    plan: &Plan,
    logs: &[IndexedLog],
    replica: u8,
    index: usize,
    call: &Logged,
    other: &Logged,
) -> bool
    requires under { IsUnder site.now logs.now }
    requires plan { plan.now ≡ site.now.plan }
    requires planned { IsNeeding site.now }
    requires replica { IsReplica (setting_at site.now) replica }
    requires call { IsIn logs.now call.now }
    requires other { IsIn logs.now other.now }
    ensures { result ≡ (need_between plan.now call.now other.now && not (stands other.now.place (places (take index (log_of logs.now replica))))) }
{
    is_need(plan, call, other) && !logs[replica as usize - 1].stands_before(other.place, index)
}

/// The first of the calls before this one, where it was decided, that it needs and that doesn't stand among the first
/// `index` of the replica's log.
fn first_late(
    site: &Site,
    plan: &Plan,
    logs: &[IndexedLog],
    replica: u8,
    index: usize,
    call: &Logged,
    front: &[Logged],
) -> Option<Place>
    requires under { IsUnder site.now logs.now }
    requires plan { plan.now ≡ site.now.plan }
    requires planned { IsNeeding site.now }
    requires replica { IsReplica (setting_at site.now) replica }
    requires call { IsIn logs.now call.now }
    requires front { All (IsIn logs.now) front.now }
    ensures { result ≡ faults.late_need (setting_at site.now) (audited (setting_at site.now) logs.now) call.now.place (places (take index (log_of logs.now replica))) (places front.now) }
{
    for other in front {
        if is_late(site, plan, logs, replica, index, call, other) {
            return Some(other.place);
        }
    }
    None
}

/// What is wrong with a call at its position, where of each lane as many calls as its count stand before it.
fn late_at(
    site: &Site,
    plan: &Plan,
    logs: &[IndexedLog],
    fronts: &[Items<Places>],
    counts: &[u32; MAX_LANES],
    replica: u8,
    index: usize,
    call: &Logged,
) -> Option<AuditFault>
    requires under { IsUnder site.now logs.now }
    requires plan { plan.now ≡ site.now.plan }
    requires planned { IsNeeding site.now }
    requires fronts { AreAllFronts (setting_at site.now) logs.now fronts.now }
    requires replica { IsReplica (setting_at site.now) replica }
    requires call { slice_get (log_of logs.now replica) index ≡ Some call.now }
    requires counts { HasFirst counts.now (places (take index (log_of logs.now replica))) }
    ensures { result ≡ late_here (setting_at site.now) logs.now replica index }
{
    let _me = site.me();
    let decider = site.decider_of(call.place.lane) as usize - 1;
    match logs[decider].index_of(call.place) {
        None => unreachable!(),
        Some(at) => {
            if are_within(counts, fronts[decider].items()[at].items()) {
                return None;
            }
            let log = logs[decider].log();
            let need = first_late(site, plan, logs, replica, index, call, &log[..at]);
            late_by(replica, index as u32 + 1, need)
        }
    }
}

fn late_by(replica: u8, index: u32, need: Option<Place>) -> Option<AuditFault>
    ensures { result ≡ faults.late_by replica index need }
{
    match need {
        None => None,
        Some(need) => Some(AuditFault::NeedLate {
            replica,
            index,
            need,
        }),
    }
}

/// Counts a call of its lane, where it is the next there.
fn count_in(counts: &mut [u32; MAX_LANES], place: Place)
    requires { 0 < place.number }
    ensures { counts.new ≡ counted counts.old place }
{
    let lane = place.lane as usize;
    if counts[lane] == place.number - 1 {
        counts[lane] = place.number;
    }
}

/// The first call of a replica's log that doesn't stand after what it needs.
fn log_lateness(
    site: &Site,
    plan: &Plan,
    logs: &[IndexedLog],
    fronts: &[Items<Places>],
    replica: u8,
) -> Option<AuditFault>
    requires under { IsUnder site.now logs.now }
    requires plan { plan.now ≡ site.now.plan }
    requires planned { IsNeeding site.now }
    requires fronts { AreAllFronts (setting_at site.now) logs.now fronts.now }
    requires replica { IsReplica (setting_at site.now) replica }
    ensures { result ≡ faults.late_along (setting_at site.now) logs.now replica [] (places (log_of logs.now replica)) }
{
    let _me = site.me();
    let mut counts = no_counts();
    let log = logs[replica as usize - 1].log();
    for (i, call) in log.iter().enumerate() {
        let fault = late_at(site, plan, logs, fronts, &counts, replica, i, call);
        if fault.is_some() {
            return fault;
        }
        count_in(&mut counts, call.place);
    }
    None
}

/// Places that cover what stands before each decided call, replica by replica.
fn all_fronts(
    alloc: Global,
    site: &Site,
    logs: &[IndexedLog],
) -> Result<Items<Items<Places>>, NoMemory>
    requires under { IsUnder site.now logs.now }
    requires planned { IsNeeding site.now }
    ensures { IfOk result (λ fronts. AreAllFronts (setting_at site.now) logs.now fronts) }
{
    let _me = site.me();
    let mut fronts = Items::new(alloc);
    for replica in 1..site.replicas() + 1 {
        fronts.push(fronts_of(alloc, site, logs, replica)?)?;
    }
    Ok(fronts)
}

/// The first call that doesn't stand after what it needs.
pub fn need_fault(
    alloc: Global,
    site: &Site,
    plan: &Plan,
    logs: &[IndexedLog],
) -> Result<Option<AuditFault>, NoMemory>
    requires under { IsUnder site.now logs.now }
    requires plan { plan.now ≡ site.now.plan }
    requires planned { IsNeeding site.now }
    ensures { IfOk result (λ fault. fault ≡ faults.need_fault (setting_at site.now) logs.now) }
{
    let _me = site.me();
    let fronts = all_fronts(alloc, site, logs)?;
    for replica in 1..site.replicas() + 1 {
        let fault = log_lateness(site, plan, logs, fronts.items(), replica);
        if fault.is_some() {
            return Ok(fault);
        }
    }
    Ok(None)
}
