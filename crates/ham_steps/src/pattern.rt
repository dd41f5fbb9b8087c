//! Patterns of ids.

ghost use Rattle.std.specs.Prelude.{◌≡◌, List, ℕ, MatchOption};
ghost use Rattle.ham_steps.specs.Pattern.{fits, matches, IsConstants};

use crate::row::Row;
use ham_syntax::Term;
use ham_syntax::limits::MAX_COLUMNS;

fn term_fits(term: Term, id: u64) -> bool
    ensures { result ≡ fits term id }
{
    match term {
        Term::Param(_) => false,
        Term::Const(c) => c == id,
        Term::Any => true,
    }
}

/// Whether the row matches the pattern: a constant matches its id, and `_` matches any. A pattern of another length, or
/// with a parameter, matches none.
pub fn row_matches(pattern: &[Term], row: &[u64]) -> bool
    ensures { result ≡ matches pattern.now row.now }
{
    if pattern.len() != row.len() {
        return false;
    }
    for (i, term) in pattern.iter().enumerate() {
        if !term_fits(*term, row[i]) {
            return false;
        }
    }
    true
}

/// The row that the pattern spells out, where it does.
pub fn constants(pattern: &[Term]) -> Option<Row>
    ensures { MatchOption result ((row : List ℕ) → IsConstants pattern.now row → ⊥) (IsConstants pattern.now) }
{
    if pattern.len() > MAX_COLUMNS {
        return None;
    }
    let mut ids = [0u64; MAX_COLUMNS];
    for (i, term) in pattern.iter().enumerate() {
        match term {
            Term::Const(id) => ids[i] = *id,
            Term::Param(_) | Term::Any => return None,
        }
    }
    Some(Row::of(&ids[..pattern.len()]))
}
