//! Tests of the lines of schedules and of clients. Which lines are refused, and what is answered, is shown by the files of
//! `examples/tests/`.
#![tactic(auto)]

#[cfg(test)]
mod clients;
#[cfg(test)]
mod lines;
#[cfg(test)]
mod objects;
