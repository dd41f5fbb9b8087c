//! The tables of a document.

ghost use Rattle.std.specs.Prelude.{codes, false, []};
ghost use Rattle.toml.specs.Data.{as_bool, as_integer};
ghost use Rattle.toml.specs.View.{table_view};
ghost use Rattle.ham_forms.specs.Outcomes.{Gives};
ghost use Rattle.ham_forms.specs.Words.{name_of, invariant_kind_of};
ghost use Rattle.ham_toml.specs.Toml as tables;

use crate::keys::{Form, array_at, at, entry, in_form, in_read_form, known, required};
use crate::values::{invariant_kind, name, natural, naturals, one, params, parts};
use ham_check::{Raw, RawInvariant, RawMethod, RawPart, RawRelation};
use ham_forms::{FileFault, InvariantKind};
use ham_lists::Items;
use ham_syntax::{Counter, Name, Param};
use std::alloc::Global;
use toml::Table;

fn needed_name(alloc: Global, table: &Table, key: &str) -> Result<Name, FileFault>
    ensures { Gives result (tables.needed key.now (tables.word_in name_of) (table_view table.now)) }
{
    let value = required(alloc, table, key)?;
    in_form(alloc, key, name(value))
}

fn needed_natural(alloc: Global, table: &Table, key: &str) -> Result<u64, FileFault>
    ensures { Gives result (tables.needed key.now tables.natural_in (table_view table.now)) }
{
    let value = required(alloc, table, key)?;
    in_form(alloc, key, natural(value))
}

fn needed_naturals(alloc: Global, table: &Table, key: &str) -> Result<Items<u64>, FileFault>
    ensures { Gives result (tables.needed key.now (tables.array_in tables.natural_in) (table_view table.now)) }
{
    let value = required(alloc, table, key)?;
    in_read_form(alloc, key, naturals(alloc, value))
}

fn needed_integer(alloc: Global, table: &Table, key: &str) -> Result<i64, FileFault>
    ensures { Gives result (tables.needed key.now as_integer (table_view table.now)) }
{
    let value = required(alloc, table, key)?;
    in_form(alloc, key, value.as_integer())
}

fn needed_invariant_kind(
    alloc: Global,
    table: &Table,
    key: &str,
) -> Result<InvariantKind, FileFault>
    ensures { Gives result (tables.needed key.now (tables.word_in invariant_kind_of) (table_view table.now)) }
{
    let value = required(alloc, table, key)?;
    in_form(alloc, key, invariant_kind(value))
}

fn needed_one(alloc: Global, table: &Table, key: &str) -> Result<(), FileFault>
    ensures { Gives result (tables.needed key.now tables.one_in (table_view table.now)) }
{
    let value = required(alloc, table, key)?;
    in_form(alloc, key, one(value))
}

fn wanted_flag(alloc: Global, table: &Table, key: &str) -> Result<bool, FileFault>
    ensures { Gives result (tables.wanted key.now as_bool false (table_view table.now)) }
{
    match at(table, key) {
        None => Ok(false),
        Some(value) => in_form(alloc, key, value.as_bool()),
    }
}

fn wanted_params(alloc: Global, table: &Table, key: &str) -> Result<Items<Param>, FileFault>
    ensures { Gives result (tables.wanted key.now (tables.array_in tables.param_in) [] (table_view table.now)) }
{
    match at(table, key) {
        None => Ok(Items::new(alloc)),
        Some(value) => in_read_form(alloc, key, params(alloc, value)),
    }
}

fn wanted_parts(alloc: Global, table: &Table, key: &str) -> Result<Items<RawPart>, FileFault>
    ensures { Gives result (tables.wanted key.now (tables.array_in tables.part_in) [] (table_view table.now)) }
{
    match at(table, key) {
        None => Ok(Items::new(alloc)),
        Some(value) => in_read_form(alloc, key, parts(alloc, value)),
    }
}

#[tactic(auto, unfolding(crate::specs::Toml::relation_in))]
fn relation(alloc: Global, table: &Table) -> Result<RawRelation, FileFault>
    ensures { Gives result (tables.relation_in (table_view table.now)) }
{
    known(alloc, Form::Relation, table)?;
    let name = needed_name(alloc, table, "name")?;
    let columns = needed_natural(alloc, table, "columns")?;
    Ok(RawRelation { name, columns })
}

#[tactic(auto, unfolding(crate::specs::Toml::counter_in))]
fn counter(alloc: Global, table: &Table) -> Result<Counter, FileFault>
    ensures { Gives result (tables.counter_in (table_view table.now)) }
{
    known(alloc, Form::Counter, table)?;
    let name = needed_name(alloc, table, "name")?;
    let keyed = wanted_flag(alloc, table, "keyed")?;
    Ok(Counter { name, keyed })
}

#[tactic(auto, unfolding(crate::specs::Toml::invariant_in))]
fn invariant(alloc: Global, table: &Table) -> Result<RawInvariant, FileFault>
    ensures { Gives result (tables.invariant_in (table_view table.now)) }
{
    match needed_invariant_kind(alloc, table, "kind")? {
        InvariantKind::Reference => reference(alloc, table),
        InvariantKind::Unique => unique(alloc, table),
        InvariantKind::Low => low(alloc, table),
        InvariantKind::High => high(alloc, table),
    }
}

#[tactic(auto, unfolding(crate::specs::Toml::reference_in))]
fn reference(alloc: Global, table: &Table) -> Result<RawInvariant, FileFault>
    ensures { Gives result (tables.reference_in (table_view table.now)) }
{
    known(alloc, Form::Reference, table)?;
    let from = needed_name(alloc, table, "from")?;
    let columns = needed_naturals(alloc, table, "columns")?;
    let to = needed_name(alloc, table, "to")?;
    Ok(RawInvariant::Reference { from, columns, to })
}

#[tactic(auto, unfolding(crate::specs::Toml::unique_in))]
fn unique(alloc: Global, table: &Table) -> Result<RawInvariant, FileFault>
    ensures { Gives result (tables.unique_in (table_view table.now)) }
{
    known(alloc, Form::Unique, table)?;
    let relation = needed_name(alloc, table, "relation")?;
    let columns = needed_naturals(alloc, table, "columns")?;
    Ok(RawInvariant::Unique { relation, columns })
}

#[tactic(auto, unfolding(crate::specs::Toml::low_in))]
fn low(alloc: Global, table: &Table) -> Result<RawInvariant, FileFault>
    ensures { Gives result (tables.low_in (table_view table.now)) }
{
    known(alloc, Form::Limit, table)?;
    let counter = needed_name(alloc, table, "counter")?;
    let limit = needed_integer(alloc, table, "limit")?;
    Ok(RawInvariant::Low { counter, limit })
}

#[tactic(auto, unfolding(crate::specs::Toml::high_in))]
fn high(alloc: Global, table: &Table) -> Result<RawInvariant, FileFault>
    ensures { Gives result (tables.high_in (table_view table.now)) }
{
    known(alloc, Form::Limit, table)?;
    let counter = needed_name(alloc, table, "counter")?;
    let limit = needed_integer(alloc, table, "limit")?;
    Ok(RawInvariant::High { counter, limit })
}

#[tactic(auto, unfolding(crate::specs::Toml::method_in))]
fn method(alloc: Global, table: &Table) -> Result<RawMethod, FileFault>
    ensures { Gives result (tables.method_in (table_view table.now)) }
{
    known(alloc, Form::Method, table)?;
    let name = needed_name(alloc, table, "name")?;
    let params = wanted_params(alloc, table, "params")?;
    let guards = wanted_parts(alloc, table, "guards")?;
    let effects = wanted_parts(alloc, table, "effects")?;
    Ok(RawMethod {
        name,
        params,
        guards,
        effects,
    })
}

fn relations(alloc: Global, table: &Table) -> Result<Items<RawRelation>, FileFault>
    ensures { Gives result (tables.section (codes "relation") tables.relation_in (table_view table.now)) }
{
    let mut relations = Items::new(alloc);
    for value in array_at(alloc, table, "relation")? {
        relations.push(relation(alloc, entry(alloc, "relation", value)?)?)?;
    }
    Ok(relations)
}

fn counters(alloc: Global, table: &Table) -> Result<Items<Counter>, FileFault>
    ensures { Gives result (tables.section (codes "counter") tables.counter_in (table_view table.now)) }
{
    let mut counters = Items::new(alloc);
    for value in array_at(alloc, table, "counter")? {
        counters.push(counter(alloc, entry(alloc, "counter", value)?)?)?;
    }
    Ok(counters)
}

fn invariants(alloc: Global, table: &Table) -> Result<Items<RawInvariant>, FileFault>
    ensures { Gives result (tables.section (codes "invariant") tables.invariant_in (table_view table.now)) }
{
    let mut invariants = Items::new(alloc);
    for value in array_at(alloc, table, "invariant")? {
        invariants.push(invariant(alloc, entry(alloc, "invariant", value)?)?)?;
    }
    Ok(invariants)
}

fn methods(alloc: Global, table: &Table) -> Result<Items<RawMethod>, FileFault>
    ensures { Gives result (tables.section (codes "method") tables.method_in (table_view table.now)) }
{
    let mut methods = Items::new(alloc);
    for value in array_at(alloc, table, "method")? {
        methods.push(method(alloc, entry(alloc, "method", value)?)?)?;
    }
    Ok(methods)
}

/// The object that the table of a document says.
#[tactic(auto, unfolding(crate::specs::Toml::document_in))]
pub fn document(alloc: Global, table: &Table) -> Result<Raw, FileFault>
    ensures { Gives result (tables.document_in (table_view table.now)) }
{
    known(alloc, Form::Document, table)?;
    needed_one(alloc, table, "version")?;
    let relations = relations(alloc, table)?;
    let counters = counters(alloc, table)?;
    let invariants = invariants(alloc, table)?;
    let methods = methods(alloc, table)?;
    Ok(Raw {
        relations,
        counters,
        invariants,
        methods,
    })
}
