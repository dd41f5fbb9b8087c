//! What is true of the texts of replies, as contracts of functions with empty bodies.

ghost use Rattle.ham_serve.specs.Recorded.{RecordedAreLines};

/// What is told of recorded calls is a line with their number and the lines of a log in a text of records, so that such a
/// text can be gathered from nodes.
pub fn recorded_calls_are_lines()
    ensures { RecordedAreLines }
{}
