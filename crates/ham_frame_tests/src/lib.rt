//! Tests of frames by their public calls, against bytes written by hand.
#![tactic(auto)]

#[cfg(test)]
mod frames;
#[cfg(test)]
mod samples;
#[cfg(test)]
mod streams;
