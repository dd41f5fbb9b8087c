//! Slips in the rules, each with an object on which the relation that the slip would derive is false.
//!
//! A rule that were wrong in the definition and in the code alike would still prove; these laws show for three such slips
//! that the soundness of the rules would then be false. Nothing stands on it.
#![tactic(auto)]

pub mod laws;
