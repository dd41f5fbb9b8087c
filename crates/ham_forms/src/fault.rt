//! Why a file was not read.

ghost use Rattle.std.specs.Prelude.{◌≡◌, ◌++◌, IfOk};
ghost use Rattle.ham_forms.specs.Outcomes.{Means};
ghost use Rattle.ham_forms.specs.FaultTexts as texts;

use ham_check::{Ill, IllKind, IllPlace};
use ham_lists::{Bytes, NoMemory as OutOfMemory, Word};
use std::alloc::Global;
use thiserror::Error;

/// The first fault of a file, for which its bytes were not taken as an object.
#[derive(Debug, Drop, Error)]
pub enum FileFault {
    /// The bytes are no text in UTF-8; the first `at` of them are the longest part from their front that is.
    #[error("not utf-8 at {at}")]
    NotUtf8 { at: u64 },
    /// The text is no TOML document.
    #[error("not toml")]
    NotToml,
    /// The least key, byte by byte, of those that a table has and that aren't listed for it.
    #[error("unknown key")]
    UnknownKey { key: Word },
    /// A table lacks a key that it is to have.
    #[error("missing key")]
    MissingKey { key: Word },
    /// What stands at a key is of another form than is listed for it.
    #[error("bad value")]
    BadValue { key: Word },
    /// The object that the file has is not well formed.
    #[error(transparent)]
    Ill(Ill),
    /// A line of the plain form, from 1, that can't stand there, or lacks its end; the one after the last where `end`
    /// never comes.
    #[error("bad line {line}")]
    BadLine { line: u64 },
    #[error("out of memory")]
    NoMemory,
}

impl From<OutOfMemory> for FileFault {
    ghost use Rattle.std.specs.Prelude.{◌≡◌};
    ghost use Rattle.ham_forms.specs.declared.fault.FileFault.TheVariants.{NoMemory};

    ghost from_gives = { λ _ e. e ≡ NoMemory };

    fn from(_e: OutOfMemory) -> FileFault {
        FileFault::NoMemory
    }
}

/// Why a part of a file was not read.
#[derive(Clone, Copy, Debug, PartialEq, Eq, Drop)]
pub enum Unread {
    /// It stands for nothing.
    Nothing,
    NoMemory,
}

impl From<OutOfMemory> for Unread {
    ghost use Rattle.std.specs.Prelude.{◌≡◌};
    ghost use Rattle.ham_forms.specs.declared.fault.Unread.TheVariants.{NoMemory};

    ghost from_gives = { λ _ e. e ≡ NoMemory };

    fn from(_e: OutOfMemory) -> Unread {
        Unread::NoMemory
    }
}

/// The key isn't listed.
pub fn unknown(alloc: Global, key: &str) -> FileFault
    ensures { Means result (FileFault.UnknownKey key.now) }
{
    match Word::of(alloc, key.as_bytes()) {
        Ok(key) => FileFault::UnknownKey { key },
        Err(_) => FileFault::NoMemory,
    }
}

/// The key isn't there.
pub fn missing(alloc: Global, key: &str) -> FileFault
    ensures { Means result (FileFault.MissingKey key.now) }
{
    match Word::of(alloc, key.as_bytes()) {
        Ok(key) => FileFault::MissingKey { key },
        Err(_) => FileFault::NoMemory,
    }
}

/// The value at the key is of another form.
pub fn bad(alloc: Global, key: &str) -> FileFault
    ensures { Means result (FileFault.BadValue key.now) }
{
    match Word::of(alloc, key.as_bytes()) {
        Ok(key) => FileFault::BadValue { key },
        Err(_) => FileFault::NoMemory,
    }
}

impl FileFault {
    /// The text of the fault, as `bad line 3`.
    pub fn text(&self, alloc: Global) -> Result<Bytes, OutOfMemory>
        ensures { IfOk result (λ bytes. bytes ≡ texts.fault_text self.now) }
    {
        match self {
            FileFault::NotUtf8 { at } => Ok(Bytes::from(format!(in alloc;
                "not utf-8 at {at}"
            )?.into_bytes())),
            FileFault::NotToml => Bytes::of(alloc, b"not toml"),
            FileFault::UnknownKey { key } => joined(alloc, b"unknown key ", key.items()),
            FileFault::MissingKey { key } => joined(alloc, b"missing key ", key.items()),
            FileFault::BadValue { key } => joined(alloc, b"bad value ", key.items()),
            FileFault::Ill(ill) => ill_text(alloc, *ill),
            FileFault::BadLine { line } => Ok(Bytes::from(format!(in alloc;
                "bad line {line}"
            )?.into_bytes())),
            FileFault::NoMemory => Bytes::of(alloc, b"out of memory"),
        }
    }
}

fn joined(alloc: Global, text: &[u8], key: &[u8]) -> Result<Bytes, OutOfMemory>
    ensures { IfOk result (λ bytes. bytes ≡ text.now ++ key.now) }
{
    let mut bytes = Bytes::of(alloc, text)?;
    bytes.extend(key)?;
    Ok(bytes)
}

fn ill_text(alloc: Global, ill: Ill) -> Result<Bytes, OutOfMemory>
    ensures { IfOk result (λ bytes. bytes ≡ texts.ill_text ill) }
{
    let IllPlace {
        section,
        entry,
        part,
    } = ill.at;
    let place = format!(in alloc; " at {section}.{entry}.{part}")?;
    joined(alloc, kind_text(ill.kind), place.as_bytes())
}

fn kind_text(kind: IllKind) -> &'static [u8]
    ensures { result.now ≡ texts.kind_text kind }
{
    match kind {
        IllKind::TooMany => b"too many",
        IllKind::TwiceNamed => b"twice named",
        IllKind::UnknownName => b"unknown name",
        IllKind::BadArity => b"bad arity",
        IllKind::WrongKind => b"wrong kind",
        IllKind::AnyNotAllowed => b"any not allowed",
        IllKind::BadColumn => b"bad column",
        IllKind::OpeningBroken => b"opening broken",
        IllKind::SelfReference => b"self reference",
        IllKind::AmountTooLarge => b"amount too large",
    }
}
