//! Links.

ghost use Rattle.std.specs.Prelude.{◌≡◌, ℕ, ◌<◌, ◌≤◌, List, Option, length, IfErr, IfOk};
ghost use Rattle.ham_bytes.specs.Causes.{Rose};
ghost use Rattle.ham_links.specs.Links.{Answers, Takes, Sends, Goes, GoesSome};

use thiserror::Error;

/// A link gave or took nothing, and counted that.
#[derive(Clone, Copy, Debug, PartialEq, Eq, Drop, Error)]
#[error("the link failed")]
pub struct LinkFault;

/// What a link gave.
#[derive(Clone, Copy, Debug, PartialEq, Eq)]
pub enum Got {
    /// So many bytes, one at least.
    Bytes(usize),
    /// Nothing came for a while.
    Quiet,
    /// Nothing will come any more.
    End,
}

/// A link, that gives bytes and takes bytes. It counts its faults and its ends, and may tell what is left to be given, and
/// what was sent.
pub trait Link {
    ghost faults: { Self → ℕ };

    ghost ends: { Self → ℕ };

    ghost left: { Self → Option (List ℕ) };

    ghost sent: { Self → Option (List ℕ) };

    /// Puts what came at the start of the buffer.
    fn get(&mut self, buf: &mut [u8]) -> Result<Got, LinkFault>
        requires { 0 < length buf.old }
        ensures answers { Answers result (length buf.old) (faults self.old) (faults self.new) (ends self.old) (ends self.new) }
        ensures takes { Takes result (left self.old) buf.new (left self.new) }
        ensures room { length buf.new ≡ length buf.old }
        ensures sent { sent self.new ≡ sent self.old }
        ensures faults { faults self.old ≤ faults self.new }
        ensures ends { ends self.old ≤ ends self.new };

    /// How many bytes it took from the front of the piece.
    fn put(&mut self, piece: &[u8]) -> Result<usize, LinkFault>
        ensures ok { IfOk result (λ n. (n ≤ length piece.now) × (0 < length piece.now → 0 < n)) }
        ensures fault { IfErr result (λ u. Rose (faults self.old) (faults self.new)) }
        ensures left { left self.new ≡ left self.old }
        ensures sends { Sends result piece.now (sent self.old) (sent self.new) }
        ensures faults { faults self.old ≤ faults self.new }
        ensures ends { ends self.new ≡ ends self.old };
}

/// Puts a whole text, or a front of it where the link fails.
#[tactic(auto, using(crate::proofs::Sending::sending_start, crate::proofs::Sending::sending_more, crate::proofs::Sending::sending_end, crate::proofs::Sending::sending_front))]
pub fn put_whole<K: Link>(link: &mut K, text: &[u8]) -> Result<(), LinkFault>
    ensures ok { IfOk result (λ u. Goes (K.sent link.old) (K.sent link.new) text.now) }
    ensures front { IfErr result (λ u. GoesSome (K.sent link.old) (K.sent link.new) text.now) }
    ensures fault { IfErr result (λ u. Rose (K.faults link.old) (K.faults link.new)) }
    ensures left { K.left link.new ≡ K.left link.old }
    ensures later { K.faults link.old ≤ K.faults link.new }
    ensures ends { K.ends link.new ≡ K.ends link.old }
{
    let mut rest = text;
    while !rest.is_empty() {
        let count = link.put(rest)?;
        rest = rest.split_at(count).1;
    }
    Ok(())
}
