//! The parts of a world before its first event.

ghost use Rattle.std.specs.Prelude.{◌≡◌, ◌-◌, ℕ, [], Some, None, IfOk, slice_get, replicate};
ghost use Rattle.ham_turns.specs.Settings.{setting_of, IsReplica};
ghost use Rattle.ham_world.specs.Opened.{opened};

use crate::send::LINKS;
use ham_frame::Decoder;
use ham_lists::NoMemory;
use ham_plan::Plan;
use ham_replica::Replica;
use ham_syntax::Object;
use ham_wire::Link;
use std::alloc::Global;

/// The replicas from 1 on.
pub(crate) fn replicas(
    alloc: Global,
    object: &Object,
    plan: &Plan,
) -> Result<Vec<Replica>, NoMemory>
    ensures { IfOk result (λ v. (r : ℕ) → IsReplica (setting_of plan.now) r
        → slice_get v.items (r - 1) ≡ Some (opened object.now plan.now r)) }
{
    let mut replicas = Vec::new(alloc);
    for before in 0..plan.replicas() {
        replicas.push(Replica::new(alloc, object, plan, before + 1)?)?;
    }
    Ok(replicas)
}

/// Links on which nothing was sent.
pub(crate) fn links(alloc: Global) -> Result<Vec<Link>, NoMemory>
    ensures { IfOk result (λ v. v.items ≡ replicate LINKS []) }
{
    let mut links = Vec::new(alloc);
    for _i in 0..LINKS {
        links.push(Link::new(alloc))?;
    }
    Ok(links)
}

/// Decoders that were fed nothing.
pub(crate) fn decoders(alloc: Global) -> Result<Vec<Decoder>, NoMemory>
    ensures { IfOk result (λ v. v.items ≡ replicate LINKS (record { total = 0; rest = []; fault = None })) }
{
    let mut decoders = Vec::new(alloc);
    for _i in 0..LINKS {
        decoders.push(Decoder::new(alloc))?;
    }
    Ok(decoders)
}
