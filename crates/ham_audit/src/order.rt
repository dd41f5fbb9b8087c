//! The order of decision: the logs are gone through side by side, each up to the first call that is not taken yet.

ghost use Rattle.std.specs.Prelude.{◌≡◌, ℕ, ◌+◌, ◌-◌, ◌*◌, ◌^◌, ◌<◌, ◌≤◌, ◌∷◌, ◌++◌, [], true, false, None, Some, length, map, replicate, take, All, IfOk, IsTrue, OnOk};
ghost use Rattle.std.specs.Option.{option_map};
ghost use Rattle.ham_turns.specs.Settings.{IsReplica};
ghost use Rattle.ham_turns.specs.Work.{first_of_two};
ghost use Rattle.ham_site.specs.Sites.{rules_at, setting_at, AreSteps, IsBounded};
ghost use Rattle.ham_records.specs.declared.records.Logged.{Logged};
ghost use Rattle.ham_audit.specs.Faults as faults;
ghost use Rattle.ham_audit.specs.Order.{next_left, next_taken, order, taken_after};
ghost use Rattle.ham_audit.specs.Records.{log_of, places, every_place, stands};
ghost use Rattle.ham_audit.specs.Passing.{at_of, state_of, next_in, own_in, forbidden_with, contents, Passes, IsUnder, IsAt, HasTaken};

use crate::fault::AuditFault;
use crate::firsts::IndexedLog;
use ham_lists::NoMemory;
use ham_meaning::Outcome;
use ham_records::Logged;
use ham_site::Site;
use ham_state::{Net, State};
use ham_syntax::Place;
use ham_syntax::limits::MAX_REPLICAS;
use std::alloc::Global;

/// How far each log was gone through, with the state of its replica there; how many calls are taken, and the first of
/// them that was not permissible.
#[derive(Drop)]
pub struct Progress {
    pub at: Vec<usize>,
    pub states: Vec<State>,
    pub count: u32,
    pub forbidden: Option<AuditFault>,
}

fn opened(alloc: Global, site: &Site) -> Result<Vec<State>, NoMemory>
    ensures contents { IfOk result (λ states. contents states.items ≡ replicate (setting_at site.now).replicas (rules_at site.now).opening) }
    ensures opened { IfOk result (λ states. All (λ s. s.invariants ≡ site.now.object.invariants) states.items) }
{
    let mut states = Vec::new(alloc);
    for _ in 0..site.replicas() {
        states.push(site.open(alloc)?)?;
    }
    Ok(states)
}

/// No call is taken.
fn begun(alloc: Global, site: &Site, logs: &[IndexedLog]) -> Result<Progress, NoMemory>
    ensures at { IfOk result (λ p. IsAt site.now logs.now p) }
    ensures count { IfOk result (λ p. p.count ≡ 0) }
{
    Ok(Progress {
        at: Vec::from_elem(alloc, 0usize, site.replicas() as usize)?,
        states: opened(alloc, site)?,
        count: 0,
        forbidden: None,
    })
}

/// Whether the call of a place is taken.
pub fn is_taken(site: &Site, logs: &[IndexedLog], progress: &Progress, place: Place) -> bool
    requires under { IsUnder site.now logs.now }
    requires at { IsAt site.now logs.now progress.now }
    requires lane { place.lane < (setting_at site.now).lanes }
    ensures { result ≡ stands place (taken_after (setting_at site.now) logs.now progress.now.count) }
{
    let _me = site.me();
    let decider = site.decider_of(place.lane) as usize;
    logs[decider - 1].stands_before(place, progress.at[decider - 1])
}

/// Goes through the next call of a log: the replica's state is that after its act.
fn pass(
    site: &Site,
    replica: u8,
    logged: &Logged,
    steps: &Net,
    progress: &mut Progress,
) -> Result<(), NoMemory>
    requires replica { IsReplica (setting_at site.now) replica }
    requires at { length progress.old.at.items ≡ (setting_at site.now).replicas }
    requires states { length progress.old.states.items ≡ (setting_at site.now).replicas }
    requires opened { All (λ s. s.invariants ≡ site.now.object.invariants) progress.old.states.items }
    requires few { at_of progress.old.at.items replica < 2 ^ 24 }
    requires small { IsBounded (state_of (contents progress.old.states.items) replica (rules_at site.now).opening) (2 ^ 60) }
    requires steps { AreSteps site.now logged.now.act steps.now }
    ensures { OnOk result (Passes site.now replica logged.now.act progress.old progress.new) }
{
    let here = replica as usize - 1;
    site.apply(&mut progress.states[here], &logged.act, steps)?;
    progress.at[here] += 1;
    Ok(())
}

/// Goes through a log as far as its calls are taken.
fn advance(
    site: &Site,
    logs: &[IndexedLog],
    replica: u8,
    progress: &mut Progress,
) -> Result<(), NoMemory>
    requires under { IsUnder site.now logs.now }
    requires at { IsAt site.now logs.now progress.old }
    requires replica { IsReplica (setting_at site.now) replica }
    ensures at { OnOk result (IsAt site.now logs.now progress.new) }
    ensures count { OnOk result (progress.new.count ≡ progress.old.count) }
    ensures next { OnOk result (next_left (taken_after (setting_at site.now) logs.now progress.new.count) (places (log_of logs.now replica))
        ≡ option_map (λ e. e.place) (next_in logs.now progress.new.at.items replica)) }
{
    let _me = site.me();
    let log = logs[replica as usize - 1].log();
    for i in progress.at[replica as usize - 1]..log.len() {
        let logged = &log[i];
        if !is_taken(site, logs, progress, logged.place) {
            return Ok(());
        }
        let steps = site.steps(&logged.act);
        pass(site, replica, logged, &steps, progress)?;
    }
    Ok(())
}

/// The call to which a log was gone through, where its replica decides it.
fn own_next(site: &Site, logs: &[IndexedLog], replica: u8, progress: &Progress) -> Option<Logged>
    requires under { IsUnder site.now logs.now }
    requires at { IsAt site.now logs.now progress.now }
    requires replica { IsReplica (setting_at site.now) replica }
    ensures { result ≡ own_in (setting_at site.now) replica (next_in logs.now progress.now.at.items replica) }
{
    let _me = site.me();
    let log = logs[replica as usize - 1].log();
    let at = progress.at[replica as usize - 1];
    if at >= log.len() {
        return None;
    }
    let logged = log[at];
    if site.decider_of(logged.place.lane) == replica {
        Some(logged)
    } else {
        None
    }
}

/// What is wrong with a call that its replica decided with this outcome, as the log's call with this index.
fn forbidden_at(replica: u8, index: u32, outcome: Outcome) -> Option<AuditFault>
    ensures { result ≡ forbidden_with replica index outcome }
{
    match outcome {
        Outcome::Yes => None,
        Outcome::Guard(_) | Outcome::Invariant(_) => Some(AuditFault::Impermissible {
            replica,
            index,
            outcome,
        }),
    }
}

/// Judges a call that its replica decides in the replica's state, where no earlier call was found wrong.
fn judge(site: &Site, replica: u8, logged: &Logged, steps: &Net, progress: &mut Progress)
    requires replica { IsReplica (setting_at site.now) replica }
    requires at { length progress.old.at.items ≡ (setting_at site.now).replicas }
    requires states { length progress.old.states.items ≡ (setting_at site.now).replicas }
    requires opened { All (λ s. s.invariants ≡ site.now.object.invariants) progress.old.states.items }
    requires few { at_of progress.old.at.items replica < 2 ^ 24 }
    requires fits { IsTrue ((rules_at site.now).fits logged.now.act) }
    requires steps { AreSteps site.now logged.now.act steps.now }
    ensures forbidden { progress.new.forbidden ≡ first_of_two progress.old.forbidden
        (forbidden_with replica (at_of progress.old.at.items replica + 1) ((rules_at site.now).outcome (state_of (contents progress.old.states.items) replica (rules_at site.now).opening) logged.now.act)) }
    ensures rest { progress.new ≡ record progress.old { forbidden = progress.new.forbidden } }
{
    if progress.forbidden.is_none() {
        let here = replica as usize - 1;
        let outcome = site.permits(&progress.states[here], &logged.act, steps);
        progress.forbidden = forbidden_at(replica, progress.at[here] as u32 + 1, outcome);
    }
}

/// Takes a call, which its replica decides: it is judged, and gone through.
fn decide(
    site: &Site,
    logs: &[IndexedLog],
    replica: u8,
    logged: &Logged,
    progress: &mut Progress,
) -> Result<(), NoMemory>
    requires under { IsUnder site.now logs.now }
    requires at { IsAt site.now logs.now progress.old }
    requires replica { IsReplica (setting_at site.now) replica }
    requires own { own_in (setting_at site.now) replica (next_in logs.now progress.old.at.items replica) ≡ Some logged.now }
    requires new { next_taken (setting_at site.now) logs.now (taken_after (setting_at site.now) logs.now progress.old.count) ≡ Some logged.now.place }
    requires few { progress.old.count < 2 ^ 32 - 1 }
    ensures at { OnOk result (IsAt site.now logs.now progress.new) }
    ensures count { OnOk result (progress.new.count ≡ progress.old.count + 1) }
{
    let _me = site.me();
    let steps = site.steps(&logged.act);
    judge(site, replica, logged, &steps, progress);
    pass(site, replica, logged, &steps, progress)?;
    progress.count += 1;
    Ok(())
}

/// Takes the next call of the least replica that may go; tells whether there was one.
fn take_next(site: &Site, logs: &[IndexedLog], progress: &mut Progress) -> Result<bool, NoMemory>
    requires under { IsUnder site.now logs.now }
    requires at { IsAt site.now logs.now progress.old }
    requires few { progress.old.count < 2 ^ 32 - 1 }
    ensures at { OnOk result (IsAt site.now logs.now progress.new) }
    ensures took { IfOk result (λ took. HasTaken (setting_at site.now) logs.now progress.old.count progress.new.count took) }
{
    let _me = site.me();
    for replica in 1..site.replicas() + 1 {
        advance(site, logs, replica, progress)?;
        if let Some(logged) = own_next(site, logs, replica, progress) {
            decide(site, logs, replica, &logged, progress)?;
            return Ok(true);
        }
    }
    Ok(false)
}

/// The calls of all logs, counted.
pub fn count_all(logs: &[IndexedLog]) -> usize
    requires replicas { length logs.now ≤ MAX_REPLICAS }
    requires few { (r : ℕ) → length (log_of logs.now r) ≤ 2 ^ 24 }
    ensures count { result ≡ length (every_place logs.now) }
    ensures few { result ≤ 2 ^ 27 }
{
    let mut count = 0;
    for log in logs {
        count += log.log().len();
    }
    count
}

/// Takes every call that can be taken, in the order of decision.
pub fn take_all(alloc: Global, site: &Site, logs: &[IndexedLog]) -> Result<Progress, NoMemory>
    requires { IsUnder site.now logs.now }
    ensures at { IfOk result (λ p. IsAt site.now logs.now p) }
    ensures all { IfOk result (λ p. taken_after (setting_at site.now) logs.now p.count ≡ order (setting_at site.now) logs.now) }
{
    let _me = site.me();
    let mut progress = begun(alloc, site, logs)?;
    for _ in 0..count_all(logs) {
        if !take_next(site, logs, &mut progress)? {
            return Ok(progress);
        }
    }
    Ok(progress)
}
