//! Grammar files: a draft with its spellings, read from a text and written into one.

#![tactic(auto)]

mod reading;
pub mod spelled;
mod writing;
