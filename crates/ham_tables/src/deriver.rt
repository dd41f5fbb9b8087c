//! What the rules derive of an object's methods.

ghost use Rattle.std.specs.Prelude.{◌≡◌, ℕ, ◌<◌, ◌≤◌, false, length, slice_index_or};
ghost use Rattle.ham_syntax.specs.declared.limits.TheConstants.{MAX_METHODS};
ghost use Rattle.ham_rules.specs.declared.claim.Claim.TheVariants.{Is};
ghost use Rattle.ham_rules.specs.Derivations.{is_derivable};
ghost use Rattle.ham_tables.specs.DerivedPlans as derived_plans;

use ham_rules::{Claim, derivable};
use ham_syntax::Object;
use ham_syntax::limits::MAX_METHODS;

/// An object, and which of its methods are derived to be permissible wherever the invariant holds. So that is derived
/// once for each method, and not for each pair.
#[derive(Clone, Copy)]
pub(crate) struct Deriver<'a> {
    pub object: &'a Object,
    pub methods: u8,
    sufficient: [bool; MAX_METHODS],
    pub ghost all: { methods ≡ length object.now.methods },
    pub ghost few: { methods ≤ MAX_METHODS },
    pub ghost symmetric: { (m n : ℕ) → derived_plans.conflict_of object.now m n ≡ derived_plans.conflict_of object.now n m },
    ghost known: { (m : ℕ) → m < methods → slice_index_or sufficient m false ≡ is_derivable object.now (Is m) },
}

/// Of each method whether it is derived to be permissible wherever the invariant holds.
fn each_sufficient(object: &Object) -> [bool; MAX_METHODS]
    ensures { (m : ℕ) → m < length object.now.methods → slice_index_or result m false ≡ is_derivable object.now (Is m) }
{
    let mut each = [false; MAX_METHODS];
    for m in 0..object.methods().len() as u8 {
        each[m as usize] = derivable(object, &Claim::Is { m });
    }
    each
}

impl<'a> Deriver<'a> {
    /// Of the object.
    pub(crate) fn of(object: &'a Object) -> Deriver<'a>
        ensures { result.object.now ≡ object.now }
    {
        let sufficient = each_sufficient(object);
        Deriver {
            object,
            methods: object.methods().len() as u8,
            sufficient,
        }
    }

    fn is_sufficient(&self, m: u8) -> bool
        requires { m < self.now.methods }
        ensures { result ≡ is_derivable self.now.object.now (Is m) }
    {
        self.sufficient[usize::from(m)]
    }

    fn stays(&self, m: u8, n: u8) -> bool
        requires { m < self.now.methods }
        ensures { result ≡ derived_plans.stays self.now.object.now m n }
    {
        self.is_sufficient(m) || derivable(self.object, &Claim::Pr { m, n })
    }

    fn concur(&self, m: u8, n: u8) -> bool
        requires m_exists { m < self.now.methods }
        requires n_exists { n < self.now.methods }
        ensures { result ≡ derived_plans.concur self.now.object.now m n }
    {
        derivable(self.object, &Claim::Sc { m, n }) && self.stays(m, n) && self.stays(n, m)
    }

    /// Whether the methods aren't derived to concur.
    #[tactic(auto, unfolding(crate::specs::DerivedPlans::conflict_of))]
    pub(crate) fn conflict(&self, m: u8, n: u8) -> bool
        requires m_exists { m < self.now.methods }
        requires n_exists { n < self.now.methods }
        ensures { result ≡ derived_plans.conflict_of self.now.object.now m n }
    {
        !self.concur(m, n)
    }

    /// Whether m isn't derived to need no wait for n.
    #[tactic(auto, unfolding(crate::specs::DerivedPlans::depends_of))]
    pub(crate) fn depends(&self, m: u8, n: u8) -> bool
        requires { m < self.now.methods }
        ensures { result ≡ derived_plans.depends_of self.now.object.now m n }
    {
        !(self.is_sufficient(m) || derivable(self.object, &Claim::Pl { m, n }))
    }
}
