//! Steps on a state, and short lists of them.

ghost use Rattle.std.specs.Prelude.{◌≡◌, ◌<◌, ◌≤◌, length, MatchOption};

use crate::row::Row;
use ham_syntax::Terms;
use ham_syntax::limits::MAX_PARTS;
use std::marker::Model;

/// One thing done to a state: a row is inserted, rows are deleted by a pattern, or a counter at a key is changed.
/// An insert of a row that is there, and a delete that matches none, do nothing.
#[derive(Clone, Copy, Debug, PartialEq, Eq)]
pub enum Step {
    Insert { relation: u8, row: Row },
    Delete { relation: u8, pattern: Terms },
    Change { counter: u8, key: u64, by: i128 },
}

/// A change of nothing, which fills the free places of lists of steps.
pub const NOTHING: Step = Step::Change {
    counter: 0,
    key: 0,
    by: 0,
};

/// At most `MAX_PARTS` steps, kept in place: what one act does.
#[derive(Clone, Copy, Debug, PartialEq, Eq)]
pub struct Net {
    len: u8,
    at: [Step; MAX_PARTS],
}

impl Model for Net {
    ghost use Rattle.std.specs.Prelude.{List, take, length};
    ghost use Rattle.ham_steps.specs.declared.step.Step.{Step};
    ghost use Rattle.ham_steps.specs.Nothing.{nothing};
    ghost use Rattle.ham_lists.specs.InPlace.{IsPadded, padded};
    ghost use Rattle.ham_syntax.specs.declared.limits.TheConstants.{MAX_PARTS};

    ghost Value = { List Step };

    ghost view = { λ a. take a.len a.at };

    ghost invariant = { λ a. IsPadded nothing MAX_PARTS a.len a.at };

    ghost inverse = { λ steps. record { len = length steps; at = padded nothing MAX_PARTS steps } };

    ghost inverse_ok = { λ a h i. record { len = h.width i; at = h.rest i } };
}

impl Net {
    /// These steps; none exactly where there are more than `MAX_PARTS`.
    pub fn new(items: &[Step]) -> Option<Net>
        ensures { MatchOption result (MAX_PARTS < length items.now) (λ net. (length items.now ≤ MAX_PARTS) × (net ≡ items.now)) }
    {
        let len = items.len();
        if len > MAX_PARTS {
            return None;
        }
        let mut at = [NOTHING; MAX_PARTS];
        at[..len].copy_from_slice(items);
        Some(Net { len: len as u8, at })
    }

    /// The steps, in order.
    pub fn items(&self) -> &[Step]
        ensures value { result.now ≡ self.now }
        ensures few { length self.now ≤ MAX_PARTS }
    {
        &self.at[..self.len as usize]
    }
}
