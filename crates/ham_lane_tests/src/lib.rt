//! Tests of lanes, buffers and requests, by their public calls.
#![tactic(auto)]

#[cfg(test)]
mod buffers;
pub mod calls;
#[cfg(test)]
mod lanes;
#[cfg(test)]
mod requests;
