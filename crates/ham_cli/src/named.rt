//! Claims as words name them.

ghost use Rattle.std.specs.Prelude.{◌≡◌, IfSome};
ghost use Rattle.ham_derive.specs.Texts.{HasMethods};
ghost use Rattle.ham_cli.specs.Reading as reading;
ghost use Rattle.ham_cli.specs.ClaimAnswers.{claim_named};

use ham_rules::Claim;
use ham_syntax::{Name, Object};

/// A claim on methods, by their names.
#[derive(Clone, Copy, Debug)]
pub enum NamedClaim {
    Sc { m: Name, n: Name },
    Pr { m: Name, n: Name },
    Pl { m: Name, n: Name },
    Is { m: Name },
}

impl NamedClaim {
    /// The claim of a kind and one word; none where the kind takes two, or the word is no name.
    #[tactic(auto, unfolding(crate::specs::Reading::claim_on_one))]
    pub(crate) fn on_one(kind: &[u8], m: &[u8]) -> Option<NamedClaim>
        ensures { result ≡ reading.claim_on_one kind.now m.now }
    {
        let m = Name::new(m)?;
        if kind == b"is".as_slice() {
            Some(NamedClaim::Is { m })
        } else {
            None
        }
    }

    /// The claim of a kind and two words; none where the kind takes one, or a word is no name.
    #[tactic(auto, unfolding(crate::specs::Reading::claim_on_two))]
    pub(crate) fn on_two(kind: &[u8], m: &[u8], n: &[u8]) -> Option<NamedClaim>
        ensures { result ≡ reading.claim_on_two kind.now m.now n.now }
    {
        let m = Name::new(m)?;
        let n = Name::new(n)?;
        of_kind(kind, m, n)
    }

    /// The claim on the object's methods; none where a name is no method.
    #[tactic(auto, unfolding(crate::specs::ClaimAnswers::claim_named))]
    pub(crate) fn find(self, object: &Object) -> Option<Claim>
        ensures claim { result ≡ claim_named object.now self }
        ensures methods { IfSome result (λ claim. HasMethods object.now claim) }
    {
        match self {
            NamedClaim::Sc { m, n } => {
                let m = object.method_named(&m)?;
                let n = object.method_named(&n)?;
                Some(Claim::Sc { m, n })
            }
            NamedClaim::Pr { m, n } => {
                let m = object.method_named(&m)?;
                let n = object.method_named(&n)?;
                Some(Claim::Pr { m, n })
            }
            NamedClaim::Pl { m, n } => {
                let m = object.method_named(&m)?;
                let n = object.method_named(&n)?;
                Some(Claim::Pl { m, n })
            }
            NamedClaim::Is { m } => {
                let m = object.method_named(&m)?;
                Some(Claim::Is { m })
            }
        }
    }
}

fn of_kind(kind: &[u8], m: Name, n: Name) -> Option<NamedClaim>
    ensures { result ≡ reading.claim_of_kind kind.now m n }
{
    if kind == b"sc".as_slice() {
        Some(NamedClaim::Sc { m, n })
    } else if kind == b"pr".as_slice() {
        Some(NamedClaim::Pr { m, n })
    } else if kind == b"pl".as_slice() {
        Some(NamedClaim::Pl { m, n })
    } else {
        None
    }
}
