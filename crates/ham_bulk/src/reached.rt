//! Up to which frame each link was swept.

ghost use Rattle.std.specs.Prelude.{◌≡◌, ◌<◌, ◌≤◌, length, replicate, slice_index, slice_set};
ghost use Rattle.ham_bulk.specs.Scripts as scripts;

use ham_syntax::limits::MAX_REPLICAS;
use std::marker::Model;

/// As many links as there may be, and one of each replica to itself.
pub const MAX_LINKS: usize = MAX_REPLICAS * MAX_REPLICAS;

/// For each link, how many of its frames were sent when a sweep reached it last: in rows of `MAX_REPLICAS`, a row for each
/// sender.
#[derive(Drop)]
pub struct Reached {
    counts: [u64; MAX_LINKS],
}

impl Model for Reached {
    ghost use Rattle.std.specs.Prelude.{List, ℕ};

    ghost Value = { List ℕ };

    ghost view = { λ r. r.counts };
}

impl Reached {
    /// No link was reached.
    pub(crate) fn new() -> Reached
        ensures { result ≡ replicate MAX_LINKS 0 }
    {
        Reached {
            counts: [0; MAX_LINKS],
        }
    }

    /// The link is reached, with so many frames; with how many it was reached last.
    pub(crate) fn reach(&mut self, from: u8, to: u8, count: u64) -> u64
        requires some_from { 1 ≤ from }
        requires few_from { from ≤ MAX_REPLICAS }
        requires some_to { 1 ≤ to }
        requires few_to { to ≤ MAX_REPLICAS }
        ensures before { result ≡ slice_index self.old (scripts.place_of (record { from = from; to = to })) }
        ensures after { self.new ≡ slice_set self.old (scripts.place_of (record { from = from; to = to })) count }
    {
        let place = MAX_REPLICAS * (usize::from(from) - 1) + (usize::from(to) - 1);
        let before = self.counts[place];
        self.counts[place] = count;
        before
    }
}
