//! The peers of a replica.

ghost use Rattle.std.specs.Prelude.{◌≡◌, ◌≢◌, ◌+◌, ◌≤◌, vec_len, IfOk};
ghost use Rattle.ham_syntax.specs.declared.limits.TheConstants.{MAX_REPLICAS};
ghost use Rattle.ham_turns.specs.Settings.{setting_of, IsReplica};

use ham_core::Home;
use ham_plan::Plan;
use ham_syntax::NoMemory;
use std::alloc::Global;
use std::marker::PhantomData;

/// Another replica of a node's plan.
#[derive(Drop)]
pub struct Peer<L: Home> {
    pub number: u8,
    of: PhantomData<L>,
    ghost replica: { IsReplica (setting_of L.plan) number },
    ghost another: { number ≢ L.me },
    ghost few: { number ≤ MAX_REPLICAS },
}

impl<L: Home> Peer<L> {
    fn new(number: u8) -> Peer<L>
        requires replica { IsReplica (setting_of L.plan) number }
        requires another { number ≢ L.me }
        requires few { number ≤ MAX_REPLICAS }
    {
        Peer {
            number,
            of: PhantomData,
        }
    }
}

/// How many replicas there are.
pub fn replicas_of<L: Home>(plan: &Plan) -> u8
    requires { plan.now ≡ L.plan }
    ensures replicas { result ≡ L.plan.replicas }
    ensures few { result ≤ MAX_REPLICAS }
{
    plan.replicas()
}

/// The peers of a replica, by ascending number.
pub fn peers_of<L: Home>(alloc: Global, plan: &Plan, me: u8) -> Result<Vec<Peer<L>>, NoMemory>
    requires plan { plan.now ≡ L.plan }
    requires me { me ≡ L.me }
    requires replica { IsReplica (setting_of L.plan) me }
    ensures { IfOk result (λ peers. vec_len peers + 1 ≡ L.plan.replicas) }
{
    let replicas = replicas_of::<L>(plan);
    let mut peers = Vec::new(alloc);
    for below in 1..me {
        peers.push(Peer::new(below))?;
    }
    for above in me + 1..replicas + 1 {
        peers.push(Peer::new(above))?;
    }
    Ok(peers)
}
