//! Drafts: productions and rules as they are accepted or refused.

#![tactic(auto)]

pub mod draft;
pub mod sealed;
