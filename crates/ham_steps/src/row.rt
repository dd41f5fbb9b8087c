//! Rows of relations.

ghost use Rattle.std.specs.Prelude.{◌≡◌, ◌<◌, ◌≤◌, ◌⊎◌, ◌∷◌, [], length, nat_eq, MatchOption};
ghost use Rattle.std.specs.Ordering.{nat_cmp, as_partial_cmp};
ghost use Rattle.std.specs.Cmp.{partial_equiv_from_equiv, partial_order_from_own_ties};
ghost use Rattle.std.specs.Cmp.Lexicographic.{pointwise, slice_cmp, nat_list_eq_equiv};
ghost use Rattle.std.specs.Cmp.Rules.{comparing, hashing};
ghost use Rattle.std.specs.Hash as fed;
ghost use Rattle.std.proofs.Common.{rules};

use ham_syntax::limits::MAX_COLUMNS;
use std::cmp::Ordering;
use std::hash::{Hash, Hasher};
use std::marker::Model;

/// None to `MAX_COLUMNS` ids, kept in place: a row of a relation, or what stands in some of its columns.
#[derive(Clone, Copy, Debug)]
pub struct Row {
    len: u8,
    at: [u64; MAX_COLUMNS],
}

impl Model for Row {
    ghost use Rattle.std.specs.Prelude.{List, ℕ, take, length};
    ghost use Rattle.ham_lists.specs.InPlace.{IsPadded, padded};
    ghost use Rattle.ham_syntax.specs.declared.limits.TheConstants.{MAX_COLUMNS};

    ghost Value = { List ℕ };

    ghost view = { λ a. take a.len a.at };

    ghost invariant = { λ a. IsPadded 0 MAX_COLUMNS a.len a.at };

    ghost inverse = { λ ids. record { len = length ids; at = padded 0 MAX_COLUMNS ids } };

    ghost inverse_ok = { λ a h i. record { len = h.width i; at = h.rest i } };
}

impl Row {
    /// The row of these ids; none exactly where there are none or more than `MAX_COLUMNS`.
    pub fn new(ids: &[u64]) -> Option<Row>
        ensures { MatchOption result ((length ids.now ≡ 0) ⊎ (MAX_COLUMNS < length ids.now)) (λ row. (0 < length ids.now) × (length ids.now ≤ MAX_COLUMNS) × (row ≡ ids.now)) }
    {
        if ids.is_empty() || ids.len() > MAX_COLUMNS {
            return None;
        }
        Some(Row::of(ids))
    }

    /// These ids, which may be none.
    pub fn of(ids: &[u64]) -> Row
        requires { length ids.now ≤ MAX_COLUMNS }
        ensures { result ≡ ids.now }
    {
        let len = ids.len();
        let mut at = [0u64; MAX_COLUMNS];
        at[..len].copy_from_slice(ids);
        Row { len: len as u8, at }
    }

    /// The row of one id.
    pub fn one(id: u64) -> Row
        ensures { result ≡ id ∷ [] }
    {
        Row::of(&[id])
    }

    /// The ids, in order.
    pub fn items(&self) -> &[u64]
        ensures value { result.now ≡ self.now }
        ensures few { length self.now ≤ MAX_COLUMNS }
    {
        &self.at[..self.len as usize]
    }
}

impl PartialEq for Row {
    ghost eq = { λ a b. pointwise nat_eq a b };

    ghost laws = { partial_equiv_from_equiv nat_list_eq_equiv };

    fn eq(&self, other: &Row) -> bool {
        self.items() == other.items()
    }
}

impl Eq for Row {
    ghost laws = { nat_list_eq_equiv };
}

impl Hash for Row {
    ghost hash_input = { λ n. fed.slice fed.u64 n };

    ghost respects_eq = { Prim.search (hashing, rules) };

    fn hash<H: Hasher>(&self, state: &mut H) {
        self.items().hash(state);
    }
}

/// Column by column.
impl Ord for Row {
    ghost cmp = { slice_cmp nat_cmp };

    ghost total = { Prim.search (comparing, rules) };

    ghost matches_partial_cmp = { Prim.search (comparing, rules) };

    ghost matches_eq = { Prim.search (comparing, rules) };

    fn cmp(&self, other: &Row) -> Ordering {
        self.items().cmp(&other.items())
    }
}

impl PartialOrd for Row {
    ghost partial_cmp = { as_partial_cmp (slice_cmp nat_cmp) };

    ghost laws = { partial_order_from_own_ties (Prim.search (comparing, rules)) (Prim.search (comparing, rules)) };

    fn partial_cmp(&self, other: &Row) -> Option<Ordering> {
        Some(self.cmp(other))
    }
}
