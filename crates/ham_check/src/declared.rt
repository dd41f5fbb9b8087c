//! What an object declares, and what a name stands for among it.

ghost use Rattle.std.specs.Prelude.{◌≡◌, ◌<◌, ◌≤◌, length, All, IfSome};
ghost use Rattle.ham_syntax.specs.declared.limits.TheConstants.{MAX_COLUMNS, MAX_COUNTERS, MAX_RELATIONS};
ghost use Rattle.ham_syntax.specs.Checked.{IsRelation};
ghost use Rattle.ham_check.specs.Faults as faults;
ghost use Rattle.ham_check.specs.Resolved as resolved;

use crate::raw::IllKind;
use ham_syntax::{Counter, Name, Relation};

/// The relations and counters of an object, of which its invariants and methods speak.
#[derive(Clone, Copy)]
pub(crate) struct Declared<'a> {
    pub relations: &'a [Relation],
    pub counters: &'a [Counter],
    ghost few_relations: { length relations.now ≤ MAX_RELATIONS },
    ghost few_counters: { length counters.now ≤ MAX_COUNTERS },
    ghost each: { All IsRelation relations.now },
}

impl Declared<'_> {
    fn relation_place(&self, name: &Name) -> Option<usize>
        ensures place { result ≡ faults.relation_place self.now.relations.now name.now }
        ensures within { IfSome result (λ i. i < length self.now.relations.now) }
    {
        self.relations
            .iter()
            .position(|relation| relation.name == *name)
    }

    fn counter_place(&self, name: &Name) -> Option<usize>
        ensures place { result ≡ faults.counter_place self.now.counters.now name.now }
        ensures within { IfSome result (λ i. i < length self.now.counters.now) }
    {
        self.counters
            .iter()
            .position(|counter| counter.name == *name)
    }

    /// The number of a relation, or why the name has none.
    pub(crate) fn relation(&self, name: &Name) -> Result<u8, IllKind>
        ensures { result
            ≡ faults.first_fault_or
            (faults.relation_wanted self.now.relations.now self.now.counters.now name.now)
            (resolved.relation_number self.now.relations.now name.now) }
    {
        match (self.relation_place(name), self.counter_place(name)) {
            (Some(place), _) => Ok(place as u8),
            (None, Some(_)) => Err(IllKind::WrongKind),
            (None, None) => Err(IllKind::UnknownName),
        }
    }

    /// The number of a counter, or why the name has none.
    pub(crate) fn counter(&self, name: &Name) -> Result<u8, IllKind>
        ensures { result
            ≡ faults.first_fault_or
            (faults.counter_wanted self.now.relations.now self.now.counters.now name.now)
            (resolved.counter_number self.now.counters.now name.now) }
    {
        match (self.counter_place(name), self.relation_place(name)) {
            (Some(place), _) => Ok(place as u8),
            (None, Some(_)) => Err(IllKind::WrongKind),
            (None, None) => Err(IllKind::UnknownName),
        }
    }

    /// How many columns the relation at this place has.
    pub(crate) fn width(&self, place: u8) -> u8
        ensures width { result ≡ faults.width_at self.now.relations.now place }
        ensures few { result ≤ MAX_COLUMNS }
    {
        match self.relations.get(place as usize) {
            Some(relation) => relation.columns,
            None => 0,
        }
    }
}
