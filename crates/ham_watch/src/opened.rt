//! The opening state.

ghost use Rattle.std.specs.Prelude.{◌≡◌, IfOk, map, vec_len};
ghost use Rattle.std.specs.List.{AllByRecursion};
ghost use Rattle.ham_steps.specs.Content.{opening};
ghost use Rattle.ham_watch.specs.Broken.{OpensWell};
ghost use Rattle.ham_watch.specs.Watches.{IsWatch, HasRoomIn, AreWatches, HaveRoom};

use crate::watch::Watch;
use ham_syntax::Invariant;
use std::alloc::{AllocError, Global};
use std::collections::{HashMap, HashSet};

/// The invariant's watch of the opening state.
fn watch(alloc: Global, invariant: &Invariant) -> Watch
    requires { OpensWell invariant.now }
    ensures watched { IsWatch opening result }
    ensures room { HasRoomIn 0 result }
    ensures invariant { result.invariant ≡ invariant.now }
{
    Watch {
        invariant: *invariant,
        tallies: HashMap::new(alloc),
        broken: HashSet::new(alloc),
    }
}

/// A watch of the opening state for each invariant.
pub fn watches(alloc: Global, invariants: &[Invariant]) -> Result<Vec<Watch>, AllocError>
    requires { AllByRecursion OpensWell invariants.now }
    ensures watched { IfOk result (λ ws. AreWatches opening ws.items) }
    ensures room { IfOk result (λ ws. HaveRoom 0 ws.items) }
    ensures invariants { IfOk result (λ ws. map (λ w. w.invariant) ws.items ≡ invariants.now) }
{
    let mut watches = Vec::new(alloc);
    for invariant in invariants {
        watches.push(watch(alloc, invariant))?;
    }
    Ok(watches)
}
