//! The syntax of grammar files: the types of what is written, and how each part of a line is read and written.

#![tactic(auto)]

pub mod reading;
pub mod spelling;
pub mod text;
