//! The spellings of kinds: how they are declared and looked up, and the lines that use them, read and written.

#![tactic(auto)]

pub mod reading;
pub mod right;
pub mod spellings;
mod writing;
