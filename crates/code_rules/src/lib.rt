//! Which instructions of a code break a rule, and where turns lead: definitions and laws. They are a second opinion on
//! the valid codes of `stapl_code`.
#![tactic(auto)]

pub mod laws;
