//! The theory of listings: each function's contract is a theorem, and its body does nothing.

#![tactic(auto)]

ghost use Rattle.listing_theory.specs.Claims.{ListingsApart};
ghost use Rattle.listing_theory.specs.Paths.{ShortPaths};

pub mod record;

// Listings of trees of one grammar are ordered, each determines its tree, and none is a proper front of another.
pub fn listings_apart()
    ensures { ListingsApart }
{}

// A path down a tree meets no nonterminal twice over one span, and is short.
pub fn short_paths()
    ensures { ShortPaths }
{}
