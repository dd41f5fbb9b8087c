//! Greetings.

ghost use Rattle.std.specs.Prelude.{◌≡◌, ◌≤◌, length};
ghost use Rattle.std.specs.List.{AllByRecursion};
ghost use Rattle.ham_frame.specs.Spelling.{Fits, IsByte};

use ham_frame::{Frame, VERSION};
use ham_syntax::limits::{DIGEST_BYTES, MAX_REPLICAS};

/// Who is at the beginning of a link: the digest of the object, the sender, from 1, and how many replicas there are.
#[derive(Clone, Copy, Debug, PartialEq, Eq)]
pub struct Greeting {
    pub digest: [u8; DIGEST_BYTES],
    pub from: u8,
    pub of: u8,
}

/// Nothing: that a digest is so many bytes.
fn are_bytes(digest: &[u8; DIGEST_BYTES])
    ensures long { length digest.now ≡ DIGEST_BYTES }
    ensures each { AllByRecursion IsByte digest.now }
{
    let _bytes = digest.as_slice();
}

/// The frame that a greeting is.
pub(crate) fn hello(digest: &[u8; DIGEST_BYTES], from: u8, of: u8) -> Frame
    requires { (1 ≤ from) × (from ≤ of) × (of ≤ MAX_REPLICAS) }
    ensures hello { result ≡ Frame.Hello VERSION digest.now from of }
    ensures fits { Fits result }
{
    are_bytes(digest);
    Frame::Hello {
        version: VERSION,
        digest: *digest,
        from,
        of,
    }
}
