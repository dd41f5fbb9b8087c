//! Whether no row, or at most one, stands at a key after steps.

ghost use Rattle.std.specs.Prelude.{◌≡◌};
ghost use Rattle.std.specs.List.{list_all};
ghost use Rattle.ham_steps.specs.Content.{rows};
ghost use Rattle.ham_steps.specs.Steps.{after_steps};
ghost use Rattle.ham_content.specs.Kept.{content};
ghost use Rattle.ham_state.specs.Ahead.{is_elsewhere, is_alone};

use crate::ahead::Ahead;
use crate::rows_after::each_passes;
use ham_content::RowTest;
use ham_content::columns::project;
use ham_steps::Row;
use ham_syntax::Cols;

/// Passes a row that stands at another key.
#[derive(Clone, Copy)]
struct IsElsewhere<'a> {
    columns: &'a Cols,
    key: &'a Row,
}

impl RowTest for IsElsewhere<'_> {
    ghost use Rattle.ham_state.specs.Ahead.{is_elsewhere};

    ghost can_pass = { λ t. Unit {0} };

    ghost test = { λ t x. is_elsewhere t.columns.now t.key.now x };

    fn passes(&self, row: &Row) -> bool {
        project(self.columns, row) != *self.key
    }
}

/// Passes a row that stands at another key, or is this one.
#[derive(Clone, Copy)]
struct MayStandWith<'a> {
    columns: &'a Cols,
    key: &'a Row,
    row: &'a Row,
}

impl RowTest for MayStandWith<'_> {
    ghost use Rattle.ham_state.specs.Ahead.{may_stand_with};

    ghost can_pass = { λ t. Unit {0} };

    ghost test = { λ t y. may_stand_with t.columns.now t.key.now t.row.now y };

    fn passes(&self, row: &Row) -> bool {
        project(self.columns, row) != *self.key || *self.row == *row
    }
}

/// Passes a row that stands at another key, or alone at this one after the steps.
#[derive(Clone, Copy)]
struct IsAlone<'a> {
    columns: &'a Cols,
    key: &'a Row,
    ahead: &'a Ahead<'a>,
    relation: u8,
}

impl RowTest for IsAlone<'_> {
    ghost use Rattle.ham_steps.specs.Content.{rows};
    ghost use Rattle.ham_steps.specs.Steps.{after_steps};
    ghost use Rattle.ham_content.specs.Kept.{content};
    ghost use Rattle.ham_state.specs.Ahead.{is_alone};

    ghost can_pass = { λ t. Unit {0} };

    ghost test = { λ t x. is_alone t.columns.now t.key.now (rows (after_steps t.ahead.now.steps.now (content t.ahead.now.facts.now t.ahead.now.amounts.now)) t.relation) x };

    fn passes(&self, row: &Row) -> bool {
        let other = MayStandWith {
            columns: self.columns,
            key: self.key,
            row,
        };
        project(self.columns, row) != *self.key
            || each_passes(&other, self.ahead, self.relation, self.columns, self.key)
    }
}

/// Whether no row stands at the key after the steps.
pub fn none_stands(ahead: &Ahead, relation: u8, columns: &Cols, key: &Row) -> bool
    ensures { result ≡ list_all (is_elsewhere columns.now key.now) (rows (after_steps ahead.now.steps.now (content ahead.now.facts.now ahead.now.amounts.now)) relation) }
{
    let test = IsElsewhere { columns, key };
    each_passes(&test, ahead, relation, columns, key)
}

/// Whether at most one row stands at the key after the steps.
pub fn at_most_one_stands(ahead: &Ahead, relation: u8, columns: &Cols, key: &Row) -> bool
    ensures { result ≡ list_all (is_alone columns.now key.now (rows (after_steps ahead.now.steps.now (content ahead.now.facts.now ahead.now.amounts.now)) relation)) (rows (after_steps ahead.now.steps.now (content ahead.now.facts.now ahead.now.amounts.now)) relation) }
{
    let test = IsAlone {
        columns,
        key,
        ahead,
        relation,
    };
    each_passes(&test, ahead, relation, columns, key)
}
