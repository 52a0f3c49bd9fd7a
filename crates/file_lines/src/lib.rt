//! The parts of a grammar file's lines that need no declared spellings, read and written.

#![tactic(auto)]

pub mod reading;
pub mod writing;
