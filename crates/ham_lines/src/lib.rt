//! What lines of schedules and lines of clients share: numbers, and acts, counters and relations by name. The lines of
//! clients, and the texts of answers.
//!
//! It stands on the text layer and on turns. `ham_grammar` reads schedules by it, `ham_serve` clients' lines, and both
//! replays and nodes write their answers by it, so that a word means one thing in both.
#![tactic(auto)]

mod answer;
mod client;
mod fault;
pub mod laws;
mod named;
mod numbers;
mod words;
mod writers;

pub use answer::{Answer, push_answer, text};
pub use client::{ClientLine, ClientWritten, read_client};
pub use fault::LineFault;
pub use ham_text::number;
pub use named::{
    NamedAct, NamedCounter, counter_name, is_keyed, method_name, read_act, read_counter,
    read_relation, relation_name,
};
pub use numbers::{one_number, three_numbers, two_numbers};
pub use words::split;
pub use writers::{push_delivered, push_hexadecimal, push_issued, push_log, push_rows};
