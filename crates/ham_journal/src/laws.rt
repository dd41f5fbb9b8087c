//! What is true of all journals, as contracts of functions with empty bodies.

ghost use Rattle.ham_journal.specs.Closed.{HistoriesClosed, HistoriesRecorded};
ghost use Rattle.ham_journal.specs.Laws.{StoppedByStop};

/// A node is stopped exactly where a stop stands in its journal, and its work was done.
pub fn stops_are_entries()
    ensures { StoppedByStop }
{}

/// A journal whose deliveries are other replicas' leaves a log that is closed by its frames.
pub fn histories_are_closed()
    ensures { HistoriesClosed }
{}

/// What is recorded of the core that it leaves are the calls of that log: one for each place, in order, decided there or
/// come in a frame.
pub fn histories_are_recorded()
    ensures { HistoriesRecorded }
{}
