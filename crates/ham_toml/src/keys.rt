//! The keys of a table.

ghost use Rattle.std.specs.Prelude.{◌≡◌, option_map};
ghost use Rattle.toml.specs.Data.{get_member, as_table};
ghost use Rattle.toml.specs.View.{view, items_view, table_view};
ghost use Rattle.ham_forms.specs.Outcomes.{FormsAs, Gives, Shows};
ghost use Rattle.ham_toml.specs.KnownKeys.{IsUnknownTheLeast};
ghost use Rattle.ham_toml.specs.Toml as tables;

use ham_forms::{FileFault, Unread, bad, missing, unknown};
use std::alloc::Global;
use toml::{Table, Value};

/// The forms of tables, by the keys that are listed for them.
#[derive(Clone, Copy, Debug, PartialEq, Eq)]
pub enum Form {
    Document,
    Relation,
    Counter,
    Reference,
    Unique,
    /// A lower or an upper limit.
    Limit,
    Method,
}

fn lists(form: Form, key: &str) -> bool
    ensures { result ≡ tables.is_listed form key.now }
{
    match form {
        Form::Document => {
            key == "version"
                || key == "relation"
                || key == "counter"
                || key == "invariant"
                || key == "method"
        }
        Form::Relation => key == "name" || key == "columns",
        Form::Counter => key == "name" || key == "keyed",
        Form::Reference => key == "kind" || key == "from" || key == "columns" || key == "to",
        Form::Unique => key == "kind" || key == "relation" || key == "columns",
        Form::Limit => key == "kind" || key == "counter" || key == "limit",
        Form::Method => key == "name" || key == "params" || key == "guards" || key == "effects",
    }
}

/// The lesser of a key and the least of those before it.
fn lesser<'a>(key: &'a str, least: Option<&'a str>) -> &'a str
    ensures { result.now ≡ tables.lesser key.now (option_map (λ s. s.now) least.entry) }
{
    match least {
        Some(other) if other < key => other,
        _ => key,
    }
}

fn least_unlisted<'a>(form: Form, table: &'a Table) -> Option<&'a str>
    ensures { option_map (λ s. s.now) result ≡ tables.least_unlisted form (table_view table.now) }
{
    let mut least = None;
    for (key, _) in table {
        if !lists(form, key.as_str()) {
            least = Some(lesser(key.as_str(), least));
        }
    }
    least
}

/// Refuses a table with a key that isn't listed.
pub fn known(alloc: Global, form: Form, table: &Table) -> Result<(), FileFault>
    ensures { Gives result (tables.known form (table_view table.now)) }
{
    match least_unlisted(form, table) {
        None => Ok(()),
        Some(key) => Err(unknown(alloc, key)),
    }
}

/// What stands at a key.
pub fn at<'a>(table: &'a Table, key: &str) -> Option<&'a Value>
    ensures { option_map (λ v. view v.now) result ≡ get_member key.now (table_view table.now) }
{
    table.get(key)
}

/// What stands at a key that is to be there.
pub fn required<'a>(alloc: Global, table: &'a Table, key: &str) -> Result<&'a Value, FileFault>
    ensures { Shows (λ v. view v.now) result (tables.required key.now (table_view table.now)) }
{
    match at(table, key) {
        None => Err(missing(alloc, key)),
        Some(value) => Ok(value),
    }
}

/// What the value at a key is, if it is of the form that is wanted.
pub fn in_form<T>(alloc: Global, key: &str, read: Option<T>) -> Result<T, FileFault>
    ensures { Gives result (tables.in_form key.now read) }
{
    match read {
        None => Err(bad(alloc, key)),
        Some(value) => Ok(value),
    }
}

/// The same of what takes memory to read.
pub fn in_read_form<T>(alloc: Global, key: &str, read: Result<T, Unread>) -> Result<T, FileFault>
    ensures { FormsAs (FileFault.BadValue key.now) read result }
{
    match read {
        Err(Unread::Nothing) => Err(bad(alloc, key)),
        Err(Unread::NoMemory) => Err(FileFault::NoMemory),
        Ok(value) => Ok(value),
    }
}

/// The array at a key, empty where the key is absent.
pub fn array_at<'a>(alloc: Global, table: &'a Table, key: &str) -> Result<&'a [Value], FileFault>
    ensures { Shows (λ vs. items_view vs.now) result (tables.array_at key.now (get_member key.now (table_view table.now))) }
{
    match at(table, key) {
        None => Ok(&[]),
        Some(value) => match value.as_array() {
            None => Err(bad(alloc, key)),
            Some(values) => Ok(values),
        },
    }
}

/// An entry of an array of tables.
pub fn entry<'a>(alloc: Global, key: &str, value: &'a Value) -> Result<&'a Table, FileFault>
    ensures { Shows (λ t. table_view t.now) result (tables.in_form key.now (as_table (view value.now))) }
{
    match value.as_table() {
        None => Err(bad(alloc, key)),
        Some(table) => Ok(table),
    }
}

/// A table is refused by the least key, byte by byte, of those that it has and that aren't listed.
pub fn unknown_key_is_least()
    ensures { IsUnknownTheLeast }
{}
