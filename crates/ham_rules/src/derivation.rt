//! Derivations of claims, and which claims have one.

ghost use Rattle.std.specs.Prelude.{◌≡◌, ◌↔◌, IsTrue};
ghost use Rattle.ham_rules.specs.Claims.{Derivable};
ghost use Rattle.ham_rules.specs.Derivations.{is_derivable};

use crate::claim::{Claim, Reason};
use crate::owed::{obligation, obligations};
use crate::reasons::first_reason;
use ham_syntax::{Items, Object};

/// Reasons, one for each obligation of a claim, in order.
pub type Derivation = Items<Reason>;

/// Whether each obligation of the claim has a reason.
pub fn derivable(object: &Object, claim: &Claim) -> bool
    ensures computed { result ≡ is_derivable object.now claim.now }
    ensures exact { IsTrue result ↔ Derivable object.now claim.now }
{
    for k in 1..obligations(object, claim) + 1 {
        if first_reason(object, claim, &obligation(object, claim, k)).is_none() {
            return false;
        }
    }
    true
}
