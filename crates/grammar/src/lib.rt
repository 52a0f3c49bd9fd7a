//! The plain types of the product and the refusals of every layer. The model of grammars stands in `specs/`.

#![tactic(auto)]

pub mod bytes;
pub mod production;
pub mod refusals;
pub mod rule;
