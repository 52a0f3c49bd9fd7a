//! What the programs print of a book, and how they say that something can't be read.

#![tactic(auto)]

pub mod input;
pub mod summary;
