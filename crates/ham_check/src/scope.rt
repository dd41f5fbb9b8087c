//! What the names of a method's guards and effects may stand for, and their terms, resolved.

ghost use Rattle.std.specs.Prelude.{◌≡◌, ◌<◌, ◌≤◌, ◌++◌, length, map, unwrap_or, Some, IfOk, IfSome};
ghost use Rattle.ham_syntax.specs.declared.limits.TheConstants.{MAX_COLUMNS, MAX_PARAMS};
ghost use Rattle.ham_syntax.specs.declared.object.Kind.TheVariants as kinds_of;
ghost use Rattle.ham_syntax.specs.declared.term.Term.TheVariants as terms_of;
ghost use Rattle.ham_syntax.specs.Typed.{AreTyped, IsTypedKey, IsTypedTerm};
ghost use Rattle.ham_check.specs.Faults as faults;
ghost use Rattle.ham_check.specs.Resolved as resolved;

use crate::declared::Declared;
use crate::raw::{IllKind, RawTerm};
use ham_syntax::{Kind, Name, Param, Term, Terms, fits_kind};

/// What the object declares, and a method's parameters.
#[derive(Clone, Copy)]
pub(crate) struct Scope<'a> {
    pub declared: Declared<'a>,
    pub params: &'a [Param],
    ghost few: { length params.now ≤ MAX_PARAMS },
}

fn same_kind(wanted: Kind, found: Kind) -> bool
    ensures { result ≡ faults.same_kind wanted found }
{
    match (wanted, found) {
        (Kind::Id, Kind::Id) | (Kind::Amount, Kind::Amount) => true,
        (Kind::Id, Kind::Amount) | (Kind::Amount, Kind::Id) => false,
    }
}

impl Scope<'_> {
    fn param_place(&self, name: &Name) -> Option<usize>
        ensures place { result ≡ faults.param_place self.now.params.now name.now }
        ensures within { IfSome result (λ i. i < length self.now.params.now) }
    {
        self.params.iter().position(|param| param.name == *name)
    }

    fn param(&self, kind: Kind, name: &Name) -> Result<Term, IllKind>
        ensures resolved { let place = faults.param_place self.now.params.now name.now in
            result
            ≡ faults.first_fault_or
            (faults.param_ills kind (faults.param_at self.now.params.now place))
            (terms_of.Param (unwrap_or place 0)) }
        ensures typed { IfOk result IsTypedTerm }
    {
        let Some(place) = self.param_place(name) else {
            return Err(IllKind::UnknownName);
        };
        if !same_kind(kind, self.params[place].kind) {
            return Err(IllKind::WrongKind);
        }
        Ok(Term::Param(place as u8))
    }

    fn term(&self, kind: Kind, term: RawTerm) -> Result<Term, IllKind>
        ensures resolved { result
            ≡ faults.first_fault_or
            (faults.term_ills kind self.now.params.now term)
            (resolved.resolved_term self.now.params.now term) }
        ensures typed { IfOk result IsTypedTerm }
    {
        match term {
            RawTerm::Any => Err(IllKind::AnyNotAllowed),
            RawTerm::Constant(number) => {
                if !fits_kind(kind, number) {
                    return Err(IllKind::AmountTooLarge);
                }
                Ok(Term::Const(number))
            }
            RawTerm::Named(name) => self.param(kind, &name),
        }
    }

    fn key_and_amount(&self, key: RawTerm, amount: RawTerm) -> Result<(Option<Term>, Term), IllKind>
        ensures resolved { result
            ≡ faults.first_fault_or
            (faults.term_ills kinds_of.Id self.now.params.now key ++ faults.term_ills kinds_of.Amount self.now.params.now amount)
            (Some (resolved.resolved_term self.now.params.now key), resolved.resolved_term self.now.params.now amount) }
        ensures typed { IfOk result (λ r. IsTypedKey r.0 × IsTypedTerm r.1) }
    {
        let key = self.term(Kind::Id, key)?;
        let amount = self.term(Kind::Amount, amount)?;
        Ok((Some(key), amount))
    }

    /// The key and the amount that stand on a counter: a plain one has no key.
    pub(crate) fn amounts(
        &self,
        keyed: bool,
        terms: &[RawTerm],
    ) -> Result<(Option<Term>, Term), IllKind>
        ensures resolved { result
            ≡ faults.first_fault_or
            (faults.terms_ills keyed self.now.params.now terms.now)
            (resolved.resolved_key self.now.params.now terms.now, resolved.resolved_amount self.now.params.now terms.now) }
        ensures typed { IfOk result (λ r. IsTypedKey r.0 × IsTypedTerm r.1) }
    {
        match (keyed, terms) {
            (true, [key, amount]) => self.key_and_amount(*key, *amount),
            (false, [amount]) => {
                let amount = self.term(Kind::Amount, *amount)?;
                Ok((None, amount))
            }
            _ => Err(IllKind::BadArity),
        }
    }

    /// A term as an id; where any is allowed, `_` too.
    fn id(&self, any: bool, term: RawTerm) -> Result<Term, IllKind>
        ensures resolved { result
            ≡ faults.first_fault_or (faults.id_ills any self.now.params.now term) (resolved.resolved_term self.now.params.now term) }
        ensures typed { IfOk result IsTypedTerm }
    {
        match term {
            RawTerm::Any => {
                if !any {
                    return Err(IllKind::AnyNotAllowed);
                }
                Ok(Term::Any)
            }
            RawTerm::Constant(number) => Ok(Term::Const(number)),
            RawTerm::Named(name) => self.param(Kind::Id, &name),
        }
    }

    /// The terms that stand on a relation.
    pub(crate) fn ids(&self, any: bool, terms: &[RawTerm]) -> Result<Terms, IllKind>
        requires { length terms.now ≤ MAX_COLUMNS }
        ensures resolved { result
            ≡ faults.first_fault_or
            (faults.ids_ills any self.now.params.now terms.now)
            (map (resolved.resolved_term self.now.params.now) terms.now) }
        ensures typed { IfOk result AreTyped }
    {
        let mut ids = Terms::none();
        for term in terms {
            ids.push(self.id(any, *term)?);
        }
        Ok(ids)
    }
}
