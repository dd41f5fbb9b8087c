//! How many turns there are of a sort, and how many frames they sent.

ghost use Rattle.std.specs.Prelude.{◌≡◌, count_by, sum_by, IfSome};
ghost use Rattle.ham_bulk.specs.Summaries as summaries;

use ham_turns::{Delivered, Issued, What};
use ham_world::Note;

/// A sort of turns, by their answers.
#[derive(Clone, Copy, Debug, PartialEq, Eq)]
pub enum Sort {
    Issues,
    Applied,
    Forwarded,
    Impermissible,
    Deliveries,
    Fresh,
    Repeat,
    Noted,
    Early,
    Ticks,
}

impl Sort {
    /// Whether a turn with this answer is of the sort.
    fn has(self, what: What) -> bool
        ensures { result ≡ summaries.is_of self what }
    {
        match what {
            What::Issued(answer) => self.has_issue(answer),
            What::Delivered(answer) => self.has_delivery(answer),
            What::Torn => false,
            What::Ticked => matches!(self, Sort::Ticks),
        }
    }

    fn has_issue(self, answer: Issued) -> bool
        ensures { result ≡ summaries.is_issue_of self answer }
    {
        match self {
            Sort::Issues => true,
            Sort::Applied => matches!(answer, Issued::Applied { .. }),
            Sort::Forwarded => matches!(answer, Issued::Forwarded { .. }),
            Sort::Impermissible => matches!(answer, Issued::Impermissible(_)),
            _ => false,
        }
    }

    fn has_delivery(self, answer: Delivered) -> bool
        ensures { result ≡ summaries.is_delivery_of self answer }
    {
        match self {
            Sort::Deliveries => true,
            Sort::Fresh => matches!(answer, Delivered::Fresh),
            Sort::Repeat => matches!(answer, Delivered::Repeat),
            Sort::Noted => matches!(answer, Delivered::Noted),
            Sort::Early => matches!(answer, Delivered::Early),
            _ => false,
        }
    }

    /// How many of these turns are of the sort.
    pub(crate) fn count(self, notes: &[Note]) -> u64
        ensures { result ≡ count_by (λ t. summaries.is_of self t.what) notes.now }
    {
        notes.iter().filter(|note| self.has(note.what)).count() as u64
    }
}

/// How many frames these turns sent; none where they are more than a u64 holds.
pub(crate) fn frames_sent(notes: &[Note]) -> Option<u64>
    ensures { IfSome result (λ n. n ≡ sum_by (λ t. t.sent) notes.now) }
{
    let mut total = 0u64;
    for note in notes {
        total = total.checked_add(u64::from(note.sent))?;
    }
    Some(total)
}
