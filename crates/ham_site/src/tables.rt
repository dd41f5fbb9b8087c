//! Tables of a plan, so that a turn asks nothing of it.

ghost use Rattle.std.specs.Prelude.{◌≡◌, ◌<◌, length, IfOk};
ghost use Rattle.ham_plan.specs.Plans.{lanes};
ghost use Rattle.ham_site.specs.Tables.{HasLanes, HasSlots, HasDeciders, IsMethodPlan, AreMethodPlans};

use ham_lists::NoMemory;
use ham_plan::{Plan, Slots};
use ham_syntax::limits::MAX_REPLICAS;
use std::alloc::Global;

/// What a plan says of a method.
#[derive(Clone, Copy, Debug)]
pub(crate) struct MethodPlan {
    /// By replica, from 0: the lane of the calls that it issues.
    pub lanes: [u8; MAX_REPLICAS],
    /// By replica, from 0: the slot of the calls that it decides.
    pub slots: [u16; MAX_REPLICAS],
    /// The slots of the dependency array.
    pub needs: Slots,
}

fn lanes_of(plan: &Plan, method: u8) -> [u8; MAX_REPLICAS]
    requires { method < plan.now.methods }
    ensures { HasLanes plan.now method result }
{
    let mut lanes = [0; MAX_REPLICAS];
    for before in 0..plan.replicas() {
        lanes[before as usize] = plan.lane_of(method, before + 1);
    }
    lanes
}

fn slots_of(plan: &Plan, method: u8) -> [u16; MAX_REPLICAS]
    requires { method < plan.now.methods }
    ensures { HasSlots plan.now method result }
{
    let mut slots = [0; MAX_REPLICAS];
    for before in 0..plan.replicas() {
        slots[before as usize] = plan.slot_of(method, before + 1);
    }
    slots
}

fn method_plan(plan: &Plan, method: u8) -> MethodPlan
    requires { method < plan.now.methods }
    ensures { IsMethodPlan plan.now method result }
{
    MethodPlan {
        lanes: lanes_of(plan, method),
        slots: slots_of(plan, method),
        needs: plan.needs_of(method),
    }
}

/// What a plan says of each method, in order.
pub(crate) fn method_plans(alloc: Global, plan: &Plan) -> Result<Vec<MethodPlan>, NoMemory>
    ensures many { IfOk result (λ found. length found.items ≡ plan.now.methods) }
    ensures each { IfOk result (λ found. AreMethodPlans plan.now found.items) }
{
    let mut found = Vec::new(alloc);
    for method in 0..plan.methods() {
        found.push(method_plan(plan, method))?;
    }
    Ok(found)
}

/// Who decides each lane, in order.
pub(crate) fn deciders(alloc: Global, plan: &Plan) -> Result<Vec<u8>, NoMemory>
    ensures many { IfOk result (λ found. length found.items ≡ lanes plan.now) }
    ensures each { IfOk result (λ found. HasDeciders plan.now (lanes plan.now) found.items) }
{
    let mut found = Vec::new(alloc);
    for lane in 0..plan.lanes() {
        found.push(plan.decider_of(lane as u8))?;
    }
    Ok(found)
}
