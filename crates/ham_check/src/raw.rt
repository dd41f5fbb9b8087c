//! Objects as they are written: names are not resolved, and nothing is checked.

use ham_syntax::{Counter, Items, Name, NoMemory as OutOfMemory, Param};
use thiserror::Error;

/// What a guard asks, or an effect does.
#[derive(Clone, Copy, Debug, PartialEq, Eq)]
pub enum Verb {
    Present,
    Absent,
    AtLeast,
    AtMost,
    Insert,
    Delete,
    Add,
    Subtract,
}

/// A term as it is written: `_`, a constant, or the name of a parameter.
#[derive(Clone, Copy, Debug, PartialEq, Eq)]
pub enum RawTerm {
    Any,
    Constant(u64),
    Named(Name),
}

/// A relation as it is written.
#[derive(Clone, Copy, Debug, PartialEq, Eq)]
pub struct RawRelation {
    pub name: Name,
    pub columns: u64,
}

/// A guard or an effect as it is written: a verb, the name of a relation or a counter, and terms.
#[derive(Debug, Drop)]
pub struct RawPart {
    pub verb: Verb,
    pub name: Name,
    pub terms: Items<RawTerm>,
}

/// An invariant as it is written.
#[derive(Debug, Drop)]
pub enum RawInvariant {
    Reference {
        from: Name,
        columns: Items<u64>,
        to: Name,
    },
    Unique {
        relation: Name,
        columns: Items<u64>,
    },
    Low {
        counter: Name,
        limit: i64,
    },
    High {
        counter: Name,
        limit: i64,
    },
}

/// A method as it is written.
#[derive(Debug, Drop)]
pub struct RawMethod {
    pub name: Name,
    pub params: Items<Param>,
    pub guards: Items<RawPart>,
    pub effects: Items<RawPart>,
}

/// An object as it is written, in file order.
#[derive(Debug, Drop)]
pub struct Raw {
    pub relations: Items<RawRelation>,
    pub counters: Items<Counter>,
    pub invariants: Items<RawInvariant>,
    pub methods: Items<RawMethod>,
}

/// What is wrong with an entry.
#[derive(Clone, Copy, Debug, PartialEq, Eq, Error)]
pub enum IllKind {
    /// Relation 17, counter 17, invariant 33 or method 33; a method with more than 6 parameters, 8 guards or 8 effects.
    #[error("too many")]
    TooMany,
    /// An earlier relation or counter has the name, or, of a method, an earlier method; two parameters have one name.
    #[error("twice named")]
    TwiceNamed,
    /// No relation or counter, or no parameter of the method, has the name.
    #[error("unknown name")]
    UnknownName,
    /// A relation without columns or with more than 4; a number of terms that isn't the relation's, or not that of a
    /// plain counter (the amount) or a keyed one (the key and the amount); no columns, or not as many as the relation
    /// that is referred to has.
    #[error("bad arity")]
    BadArity,
    /// A counter where a relation is wanted, or the other way round; a verb of the effects among the guards, or the other
    /// way round; an amount as an id, or an id as an amount.
    #[error("wrong kind")]
    WrongKind,
    /// `_` in an insert, as a key or as an amount.
    #[error("any not allowed")]
    AnyNotAllowed,
    /// A column 0, one above the relation's columns, or one that was listed before.
    #[error("bad column")]
    BadColumn,
    /// A lower limit above 0, or an upper limit below 0.
    #[error("opening broken")]
    OpeningBroken,
    /// A relation that refers to itself.
    #[error("self reference")]
    SelfReference,
    /// A constant amount above `MAX_AMOUNT`.
    #[error("amount too large")]
    AmountTooLarge,
}

/// A place in a raw object. Section 1 has the relations, 2 the counters, 3 the invariants, 4 the methods; entries count
/// from 1. Part 0 is the entry itself, 1 to 8 are its guards, 9 to 16 its effects.
#[derive(Clone, Copy, Debug, PartialEq, Eq)]
pub struct IllPlace {
    pub section: u8,
    pub entry: u32,
    pub part: u8,
}

/// A fault of a raw object.
#[derive(Clone, Copy, Debug, PartialEq, Eq, Error)]
#[error("{kind} at {}.{}.{}", .at.section, .at.entry, .at.part)]
pub struct Ill {
    pub kind: IllKind,
    pub at: IllPlace,
}

/// Why a raw object was not taken.
#[derive(Clone, Copy, Debug, PartialEq, Eq, Drop, Error)]
pub enum CheckFault {
    #[error(transparent)]
    Ill(Ill),
    #[error("out of memory")]
    NoMemory,
}

impl From<OutOfMemory> for CheckFault {
    ghost use Rattle.std.specs.Prelude.{◌≡◌};
    ghost use Rattle.ham_check.specs.declared.raw.CheckFault.TheVariants.{NoMemory};

    ghost from_gives = { λ _ e. e ≡ NoMemory };

    fn from(_e: OutOfMemory) -> CheckFault {
        CheckFault::NoMemory
    }
}
