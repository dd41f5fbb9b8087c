//! By which columns an object's rows are found. A wrong choice would cost time, and no answer: where no sieve fits, rows
//! are looked through.

ghost use Rattle.std.specs.Prelude.{IfOk};
ghost use Rattle.ham_steps.specs.Content.{opening};
ghost use Rattle.ham_content.specs.Seats.{AreSieves, AllHaveSeats};

use ham_content::Sieve;
use ham_content::sieve::empty_sieve;
use ham_syntax::object::Method;
use ham_syntax::{Cols, Effect, Guard, Invariant, Object, Term, Terms};
use std::alloc::{AllocError, Global};

/// Columns of a relation, by which its rows are to be found.
#[derive(Clone, Copy, PartialEq, Eq)]
struct Choice {
    relation: u8,
    columns: Cols,
}

/// The columns that the pattern says, where it has `_` elsewhere.
fn bound_columns(pattern: &Terms) -> Option<Cols> {
    let terms = pattern.items();
    let mut columns = Cols::none();
    for (i, term) in terms.iter().enumerate() {
        if *term != Term::Any {
            columns.push(i as u8 + 1);
        }
    }
    if columns.items().len() < terms.len() {
        Some(columns)
    } else {
        None
    }
}

/// Adds a choice that isn't there yet.
fn add(choices: &mut Vec<Choice>, relation: u8, columns: Cols) -> Result<(), AllocError> {
    let choice = Choice { relation, columns };
    if !choices.contains(&choice) {
        choices.push(choice)?;
    }
    Ok(())
}

/// What is asked of a relation by a pattern with `_` is found by the columns that it says.
fn add_pattern(choices: &mut Vec<Choice>, relation: u8, pattern: &Terms) -> Result<(), AllocError> {
    match bound_columns(pattern) {
        Some(columns) => add(choices, relation, columns),
        None => Ok(()),
    }
}

/// The patterns of a method's guards and deletes.
fn add_method(choices: &mut Vec<Choice>, method: &Method) -> Result<(), AllocError> {
    for guard in method.guards.items() {
        match guard {
            Guard::Present { relation, terms } => add_pattern(choices, *relation, terms)?,
            Guard::Absent { relation, terms } => add_pattern(choices, *relation, terms)?,
            Guard::AtLeast { .. } => {}
            Guard::AtMost { .. } => {}
        }
    }
    for effect in method.effects.items() {
        if let Effect::Delete { relation, terms } = effect {
            add_pattern(choices, *relation, terms)?;
        }
    }
    Ok(())
}

/// Whether the effect deletes from the relation by a pattern with `_`.
fn is_sweep(effect: &Effect, relation: u8) -> bool {
    match effect {
        Effect::Delete {
            relation: from,
            terms,
        } => *from == relation && bound_columns(terms).is_some(),
        _ => false,
    }
}

/// Whether some method deletes from the relation by a pattern with `_`.
fn is_swept(object: &Object, relation: u8) -> bool {
    for method in object.methods() {
        for effect in method.effects.items() {
            if is_sweep(effect, relation) {
                return true;
            }
        }
    }
    false
}

/// Where many rows may go at once, those that stay at a key of an invariant are found by its columns.
fn add_invariant(
    choices: &mut Vec<Choice>,
    object: &Object,
    invariant: &Invariant,
) -> Result<(), AllocError> {
    match *invariant {
        Invariant::Reference { from, columns, .. } if is_swept(object, from) => {
            add(choices, from, columns)
        }
        Invariant::Unique { relation, columns } if is_swept(object, relation) => {
            add(choices, relation, columns)
        }
        _ => Ok(()),
    }
}

/// The object's choices, the most columns first: so the first that fits a pattern has all that the pattern says.
fn choices(alloc: Global, object: &Object) -> Result<Vec<Choice>, AllocError> {
    let mut choices = Vec::new(alloc);
    for method in object.methods() {
        add_method(&mut choices, method)?;
    }
    for invariant in object.invariants() {
        add_invariant(&mut choices, object, invariant)?;
    }
    choices.sort_unstable_by(|one, other| {
        other.columns.items().len().cmp(&one.columns.items().len())
    });
    Ok(choices)
}

/// The sieves of the opening state, by which rows are found in states of the object.
pub fn sieves(alloc: Global, object: &Object) -> Result<Vec<Sieve>, AllocError>
    ensures sieves { IfOk result (λ list. AreSieves opening list.items) }
    ensures room { IfOk result (λ list. AllHaveSeats 0 list.items) }
{
    let mut sieves = Vec::new(alloc);
    for choice in choices(alloc, object)?.as_slice() {
        sieves.push(empty_sieve(alloc, choice.relation, choice.columns))?;
    }
    Ok(sieves)
}
