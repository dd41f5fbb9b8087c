//! The opening of a replica.

ghost use Rattle.std.specs.Prelude.{◌≡◌, ◌+◌, [], map, replicate, IfOk};
ghost use Rattle.ham_site.specs.Sites.{rules_at, IsSite};
ghost use Rattle.ham_replica.specs.Shown.{lists_of};
ghost use Rattle.ham_replica.specs.Opening.{opening_lists};

use crate::held::Held;
use ham_buffer::Buffer;
use ham_lane::{InLane, OutLane};
use ham_lists::NoMemory;
use ham_resend::{Asks, Rulings};
use ham_site::Site;
use std::alloc::Global;

/// A replica that has taken in nothing.
pub(crate) fn new_held(alloc: Global, site: &Site) -> Result<Held, NoMemory>
    ensures site { IsSite site.now }
    ensures lists { IfOk result (λ held. lists_of held ≡ opening_lists site.now (rules_at site.now).opening) }
{
    let _me = site.me();
    let outs = new_outs(alloc, site.lanes(), site.replicas())?;
    let ins = new_ins(alloc, site.lanes())?;
    let counts = Vec::from_elem(alloc, 0u32, site.slots() as usize)?;
    let logged = Vec::from_elem(alloc, 0u32, site.lanes() as usize)?;
    let asks = Asks::new(alloc, site.groups())?;
    let rulings = Rulings::new(alloc, site.replicas(), site.groups())?;
    let state = site.open(alloc)?;
    Ok(Held {
        state,
        log: Vec::new(alloc),
        counts,
        logged,
        outs,
        ins,
        buffer: Buffer::new(alloc, site.lanes(), site.slots()),
        asks,
        rulings,
    })
}

fn new_outs(alloc: Global, lanes: u16, replicas: u8) -> Result<Vec<OutLane>, NoMemory>
    ensures decided { IfOk result (λ outs. map (λ l. l.calls) outs.items ≡ replicate lanes []) }
    ensures acked { IfOk result (λ outs. map (λ l. l.acked) outs.items ≡ replicate lanes (replicate (replicas + 1) 0)) }
{
    let mut outs = Vec::new(alloc);
    for _ in 0..lanes {
        outs.push(OutLane::new(alloc, replicas)?)?;
    }
    Ok(outs)
}

fn new_ins(alloc: Global, lanes: u16) -> Result<Vec<InLane>, NoMemory>
    ensures { IfOk result (λ ins. map (λ l. l.calls) ins.items ≡ replicate lanes []) }
{
    let mut ins = Vec::new(alloc);
    for _ in 0..lanes {
        ins.push(InLane::new(alloc))?;
    }
    Ok(ins)
}
