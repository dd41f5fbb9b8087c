//! The first words of lines.

ghost use Rattle.std.specs.Prelude.{◌≡◌};
ghost use Rattle.ham_grammar.specs.Reading.{verb_of};

/// The first word of a line: which of the shapes it has.
#[derive(Clone, Copy, Debug, PartialEq, Eq)]
pub(crate) enum Verb {
    Replicas,
    Issue,
    Deliver,
    Pieces,
    Torn,
    Tick,
    Show,
    Rows,
    Log,
    Verdict,
    Sent,
    Frame,
    Compare,
}

/// The verb that a word is; none where it is none.
#[tactic(auto, unfolding(crate::specs::Reading::verb_of))]
pub(crate) fn read_verb(word: &[u8]) -> Option<Verb>
    ensures { result ≡ verb_of word.now }
{
    if word == b"replicas".as_slice() {
        Some(Verb::Replicas)
    } else if word == b"issue".as_slice() {
        Some(Verb::Issue)
    } else if word == b"deliver".as_slice() {
        Some(Verb::Deliver)
    } else if word == b"pieces".as_slice() {
        Some(Verb::Pieces)
    } else if word == b"torn".as_slice() {
        Some(Verb::Torn)
    } else if word == b"tick".as_slice() {
        Some(Verb::Tick)
    } else if word == b"show".as_slice() {
        Some(Verb::Show)
    } else if word == b"rows".as_slice() {
        Some(Verb::Rows)
    } else if word == b"log".as_slice() {
        Some(Verb::Log)
    } else if word == b"verdict".as_slice() {
        Some(Verb::Verdict)
    } else if word == b"sent".as_slice() {
        Some(Verb::Sent)
    } else if word == b"frame".as_slice() {
        Some(Verb::Frame)
    } else if word == b"compare".as_slice() {
        Some(Verb::Compare)
    } else {
        None
    }
}
