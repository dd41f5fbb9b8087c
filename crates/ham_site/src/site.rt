//! A replica's site.

ghost use Rattle.std.specs.Prelude.{◌≡◌, ◌^◌, ◌<◌, ◌≤◌, ◌&&◌, ◌==◌, nat_lt, length, IfOk, IsTrue, OnOk, OnErr};
ghost use Rattle.ham_plan.specs.Plans.{IsPlan};
ghost use Rattle.std.specs.List.{AllByRecursion};
ghost use Rattle.ham_frame.specs.Spelling.{FitsAct, IsArgument};
ghost use Rattle.ham_turns.specs.Settings.{setting_of, IsReplica};
ghost use Rattle.ham_site.specs.Sites.{rules_at, setting_at, slots_at, IsSite, IsBounded, AreSteps};

use crate::tables::{MethodPlan, deciders, method_plans};
use ham_lists::NoMemory;
use ham_meaning::{Outcome, net, permits};
use ham_plan::Plan;
use ham_state::{Net, State};
use ham_syntax::{Act, Call, Object};
use ham_turns::laws::{plans_are_tabled, rules_are_ranged};
use std::alloc::Global;
use std::marker::Model;

/// Where a replica is: its object, its plan, and which of the plan's replicas it is. What the plan says of methods and
/// lanes was found once, so a look-up takes one step.
#[derive(Drop)]
pub struct Site {
    object: Object,
    plan: Plan,
    me: u8,
    methods: Vec<MethodPlan>,
    deciders: Vec<u8>,
    groups: u8,
    lanes: u16,
    slots: u16,
}

impl Model for Site {
    ghost use Rattle.std.specs.Prelude.{◌≡◌};
    ghost use Rattle.ham_site.specs.Sites.{Site, IsSite};
    ghost use Rattle.ham_site.specs.Tables.{AreTables};

    ghost Value = { Site };

    ghost view = { λ a. record { object = a.object; plan = a.plan; me = a.me } };

    ghost invariant = { λ a.
        IsSite (record { object = a.object; plan = a.plan; me = a.me })
        × AreTables a.plan a.methods.items a.deciders.items a.groups a.lanes a.slots };
}

/// How many arguments there are. By their type each has 64 bits, which no clause on an act says by itself.
fn count_args(act: &Act) -> usize
    ensures { AllByRecursion IsArgument act.now.args }
{
    let args = act.args.items();
    args.len()
}

impl Site {
    /// The site of a replica, with an object and a plan of its own.
    pub fn new(alloc: Global, object: &Object, plan: &Plan, me: u8) -> Result<Site, NoMemory>
        requires { IsReplica (setting_of plan.now) me }
        ensures { IfOk result (λ site. site ≡ record { object = object.now; plan = plan.now; me = me }) }
    {
        plans_are_tabled();
        rules_are_ranged();
        let _methods = object.methods();
        let _replicas = plan.replicas();
        let methods = method_plans(alloc, plan)?;
        let deciders = deciders(alloc, plan)?;
        Ok(Site {
            object: object.copy()?,
            plan: *plan,
            me,
            methods,
            deciders,
            groups: plan.groups(),
            lanes: plan.lanes(),
            slots: plan.slots(),
        })
    }

    /// Which replica this is, from 1.
    pub fn me(&self) -> u8
        ensures me { result ≡ self.now.me }
        ensures site { IsSite self.now }
    {
        self.me
    }

    /// How many methods the plan has.
    #[tactic(auto, unfolding(ham_turns::specs::Settings::setting_of))]
    pub fn methods(&self) -> u8
        ensures { result ≡ (setting_at self.now).methods }
    {
        self.plan.methods()
    }

    /// How many replicas there are.
    #[tactic(auto, unfolding(ham_turns::specs::Settings::setting_of))]
    pub fn replicas(&self) -> u8
        ensures { result ≡ (setting_at self.now).replicas }
    {
        self.plan.replicas()
    }

    /// How many groups there are.
    #[tactic(auto, unfolding(ham_turns::specs::Settings::setting_of))]
    pub fn groups(&self) -> u8
        ensures groups { result ≡ (setting_at self.now).groups }
        ensures lanes { result ≤ (setting_at self.now).lanes }
    {
        self.groups
    }

    /// How many lanes there are.
    #[tactic(auto, unfolding(ham_turns::specs::Settings::setting_of))]
    pub fn lanes(&self) -> u16
        ensures { result ≡ (setting_at self.now).lanes }
    {
        self.lanes
    }

    /// How many slots there are.
    #[tactic(auto, unfolding(crate::specs::Sites::slots_at))]
    pub fn slots(&self) -> u16
        ensures { result ≡ slots_at self.now }
    {
        self.slots
    }

    /// The lane of the calls of a method that a replica issues.
    #[tactic(auto, unfolding(ham_turns::specs::Settings::setting_of))]
    pub fn lane_of(&self, method: u8, replica: u8) -> u8
        requires method { method < (setting_at self.now).methods }
        requires replica { IsReplica (setting_at self.now) replica }
        ensures { result ≡ (setting_at self.now).lane method replica }
    {
        let found = &self.methods[method as usize];
        found.lanes[replica as usize - 1]
    }

    /// The replica that decides a lane.
    #[tactic(auto, unfolding(ham_turns::specs::Settings::setting_of))]
    pub fn decider_of(&self, lane: u8) -> u8
        requires { lane < (setting_at self.now).lanes }
        ensures { result ≡ (setting_at self.now).decider lane }
    {
        self.deciders[lane as usize]
    }

    /// The slot of the calls of a method that a replica decides.
    #[tactic(auto, unfolding(ham_turns::specs::Settings::setting_of))]
    pub fn slot_of(&self, method: u8, replica: u8) -> u16
        requires method { method < (setting_at self.now).methods }
        requires replica { IsReplica (setting_at self.now) replica }
        ensures { result ≡ (setting_at self.now).slot method replica }
    {
        let found = &self.methods[method as usize];
        found.slots[replica as usize - 1]
    }

    /// The slots of a method's dependency array.
    #[tactic(auto, unfolding(ham_turns::specs::Settings::setting_of))]
    pub fn needs_of(&self, method: u8) -> &[u16]
        requires { method < (setting_at self.now).methods }
        ensures { result.now ≡ (setting_at self.now).needs method }
    {
        let found = &self.methods[method as usize];
        found.needs.items()
    }

    /// Whether a lane exists and this replica decides it.
    pub fn is_decided_by(&self, lane: u8, replica: u8) -> bool
        ensures { result ≡ (nat_lt lane (setting_at self.now).lanes && ((setting_at self.now).decider lane == replica)) }
    {
        u16::from(lane) < self.lanes() && self.decider_of(lane) == replica
    }

    /// Whether a group exists and this replica leads it.
    pub fn is_led_by(&self, group: u8, replica: u8) -> bool
        ensures { result ≡ (nat_lt group (setting_at self.now).groups && ((setting_at self.now).decider group == replica)) }
    {
        group < self.groups() && self.decider_of(group) == replica
    }

    /// Whether a method exists and its calls by this replica are of the lane.
    pub fn has_lane(&self, method: u8, replica: u8, lane: u8) -> bool
        requires { IsReplica (setting_at self.now) replica }
        ensures { result ≡ (nat_lt method (setting_at self.now).methods && ((setting_at self.now).lane method replica == lane)) }
    {
        method < self.methods() && self.lane_of(method, replica) == lane
    }

    /// Whether a call has as many dependency counts as its method's array has slots.
    pub fn has_deps(&self, call: &Call) -> bool
        requires { call.now.act.method < (setting_at self.now).methods }
        ensures { result ≡ (length call.now.deps == length ((setting_at self.now).needs call.now.act.method)) }
    {
        call.deps.items().len() == self.needs_of(call.act.method).len()
    }

    /// Whether the act's method exists and its arguments fit it. Then the act has a place in frames.
    #[tactic(auto, unfolding(crate::specs::Sites::rules_at))]
    pub fn args_fit(&self, act: &Act) -> bool
        ensures fits { result ≡ (rules_at self.now).fits act.now }
        ensures frame { IsTrue result → FitsAct act.now }
    {
        let _many = count_args(act);
        self.object.args_fit(act)
    }

    /// The state that the object opens in.
    #[tactic(auto, unfolding(crate::specs::Sites::rules_at))]
    pub fn open(&self, alloc: Global) -> Result<State, NoMemory>
        ensures { IfOk result (λ state. (state.content ≡ (rules_at self.now).opening) × (state.invariants ≡ self.now.object.invariants)) }
    {
        State::open(alloc, &self.object)
    }

    /// What the act does, step by step.
    #[tactic(auto, unfolding(crate::specs::Sites::rules_at))]
    pub fn steps(&self, act: &Act) -> Net
        requires { IsTrue ((rules_at self.now).fits act.now) }
        ensures { AreSteps self.now act.now result }
    {
        net(&self.object, act)
    }

    /// Whether the act, whose steps are these, may be done in the state; else the first condition that fails. It takes
    /// no memory.
    #[tactic(auto, unfolding(crate::specs::Sites::rules_at))]
    pub fn permits(&self, state: &State, act: &Act, steps: &Net) -> Outcome
        requires fits { IsTrue ((rules_at self.now).fits act.now) }
        requires opened { state.now.invariants ≡ self.now.object.invariants }
        requires steps { AreSteps self.now act.now steps.now }
        ensures { result ≡ (rules_at self.now).outcome state.now.content act.now }
    {
        permits(&self.object, state, act, steps)
    }

    /// Does the act, whose steps are these: all its effects or, where memory is short, none.
    pub fn apply(&self, state: &mut State, act: &Act, steps: &Net) -> Result<(), NoMemory>
        requires small { IsBounded state.old.content (2 ^ 60) }
        requires steps { AreSteps self.now act.now steps.now }
        ensures applied { OnOk result (state.new.content ≡ (rules_at self.now).update act.now state.old.content) }
        ensures unchanged { OnErr result (state.new.content ≡ state.old.content) }
        ensures invariants { state.new.invariants ≡ state.old.invariants }
    {
        state.apply_net(steps)
    }
}
