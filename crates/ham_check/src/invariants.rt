//! Invariants, one at a time: their faults, and their names as numbers.

ghost use Rattle.std.specs.Prelude.{◌≡◌, ◌≢◌, ◌≤◌, ◌==◌, [], Some, length, IfOk};
ghost use Rattle.std.specs.List.{list_any};
ghost use Rattle.ham_syntax.specs.declared.object.Invariant.TheVariants as invariants;
ghost use Rattle.ham_check.specs.declared.raw.IllKind.TheVariants as kinds;
ghost use Rattle.ham_syntax.specs.Typed.{IsTypedInvariant};
ghost use Rattle.ham_check.specs.Faults as faults;
ghost use Rattle.ham_check.specs.Resolved as resolved;

use crate::declared::Declared;
use crate::raw::{IllKind, RawInvariant};
use ham_syntax::limits::{MAX_COLUMNS, MAX_INVARIANTS};
use ham_syntax::{Cols, Invariant};

fn is_listed(columns: &[u64], column: u64) -> bool
    ensures { result ≡ list_any (λ c. column == c) columns.now }
{
    columns.iter().any(|listed| column == *listed)
}

fn is_bad_column(width: u8, before: &[u64], column: u64) -> bool
    ensures { result ≡ faults.is_bad_column width before.now column }
{
    column == 0 || column > u64::from(width) || is_listed(before, column)
}

/// The columns of a relation of this width, each once.
fn resolve_columns(width: u8, columns: &[u64]) -> Result<Cols, IllKind>
    requires { width ≤ MAX_COLUMNS }
    ensures { result
        ≡ faults.first_fault_or
        (faults.fault_if (faults.has_bad_column width [] columns.now) kinds.BadColumn)
        columns.now }
{
    let mut resolved = Cols::none();
    for (i, column) in columns.iter().enumerate() {
        if is_bad_column(width, &columns[..i], *column) {
            return Err(IllKind::BadColumn);
        }
        resolved.push(*column as u8);
    }
    Ok(resolved)
}

fn resolve_reference(
    declared: &Declared,
    from: u8,
    columns: &[u64],
    to: u8,
) -> Result<Cols, IllKind>
    ensures { result ≡ faults.first_fault_or (faults.reference_ills declared.now.relations.now (Some from) columns.now (Some to)) columns.now }
{
    if from == to {
        return Err(IllKind::SelfReference);
    }
    if columns.len() != usize::from(declared.width(to)) {
        return Err(IllKind::BadArity);
    }
    resolve_columns(declared.width(from), columns)
}

fn resolve_unique(declared: &Declared, relation: u8, columns: &[u64]) -> Result<Cols, IllKind>
    ensures { result ≡ faults.first_fault_or (faults.unique_ills declared.now.relations.now (Some relation) columns.now) columns.now }
{
    if columns.is_empty() {
        return Err(IllKind::BadArity);
    }
    resolve_columns(declared.width(relation), columns)
}

fn resolve_form(declared: &Declared, invariant: &RawInvariant) -> Result<Invariant, IllKind>
    ensures resolved { result
        ≡ faults.first_fault_or
        (faults.form_ills declared.now.relations.now declared.now.counters.now invariant.now)
        (resolved.resolved_invariant declared.now.relations.now declared.now.counters.now invariant.now) }
    ensures typed { IfOk result IsTypedInvariant }
{
    match invariant {
        RawInvariant::Reference { from, columns, to } => {
            let from = declared.relation(from)?;
            let to = declared.relation(to)?;
            let columns = resolve_reference(declared, from, columns.items(), to)?;
            Ok(Invariant::Reference { from, columns, to })
        }
        RawInvariant::Unique { relation, columns } => {
            let relation = declared.relation(relation)?;
            let columns = resolve_unique(declared, relation, columns.items())?;
            Ok(Invariant::Unique { relation, columns })
        }
        RawInvariant::Low { counter, limit } => {
            let counter = declared.counter(counter)?;
            if 0 < *limit {
                return Err(IllKind::OpeningBroken);
            }
            Ok(Invariant::Low {
                counter,
                limit: *limit,
            })
        }
        RawInvariant::High { counter, limit } => {
            let counter = declared.counter(counter)?;
            if *limit < 0 {
                return Err(IllKind::OpeningBroken);
            }
            Ok(Invariant::High {
                counter,
                limit: *limit,
            })
        }
    }
}

pub(crate) fn resolve_invariant(
    declared: &Declared,
    before: &[RawInvariant],
    invariant: &RawInvariant,
) -> Result<Invariant, IllKind>
    ensures checked { result
        ≡ faults.first_fault_or
        (faults.invariant_ills declared.now.relations.now declared.now.counters.now before.now invariant.now)
        (resolved.resolved_invariant declared.now.relations.now declared.now.counters.now invariant.now) }
    ensures room { IfOk result (λ _. length before.now ≢ MAX_INVARIANTS) }
    ensures typed { IfOk result IsTypedInvariant }
{
    if before.len() == MAX_INVARIANTS {
        return Err(IllKind::TooMany);
    }
    resolve_form(declared, invariant)
}
