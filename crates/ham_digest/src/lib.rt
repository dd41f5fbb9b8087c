//! The digest of an object.
//!
//! It stands on the plain form; peers greet each other with it, and part where their objects differ.
#![tactic(auto)]

ghost use Rattle.std.specs.Prelude.{◌≡◌, IfOk};
ghost use Rattle.sha2.specs.Sha256.{sha256};
ghost use Rattle.ham_plain.specs.Written.{plain_of};

use ham_lists::NoMemory;
use ham_plain::print_plain;
use ham_syntax::Object;
use ham_syntax::limits::DIGEST_BYTES;
use sha2::{Digest, Sha256};
use std::alloc::Global;

/// The digest of an object, by which replicas know that theirs is the same: SHA-256 over its plain form. So the two forms of a
/// file of one object have one digest.
pub fn digest(alloc: Global, object: &Object) -> Result<[u8; DIGEST_BYTES], NoMemory>
    ensures { IfOk result (λ bytes. bytes ≡ sha256 (plain_of object.now)) }
{
    let text = print_plain(alloc, object)?;
    Ok(Sha256::digest(text.items()))
}
