//! Outcomes of acts against a plain scan of rows and counters, in states that break invariants too, which no run comes to.
#![tactic(auto)]

#[cfg(test)]
mod outcomes;
#[cfg(test)]
mod random;
#[cfg(test)]
mod scan;
