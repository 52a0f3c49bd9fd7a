//! What the productions and the rules of a grammar derive: which nonterminals derive the empty list, which lead to
//! which, and which productions have priority over which.
//!
//! Each function asks of the slice that left sides are nonterminals, or that rules name productions. `Production` and `Rule`
//! are public types that any caller may make, so a fact in the type would ask more of whoever makes one.

#![tactic(auto)]

ghost use Rattle.std.specs.Prelude.{◌≡◌, ℕ, ◌<◌, ◌≤◌, true, false, ◌⊎◌, ◌↔◌, length};
ghost use Rattle.grammar.specs.Grammar.{Nonterminal};
ghost use Rattle.grammar.specs.Order.{Above};
ghost use Rattle.grammar.specs.Derivations.{Nullable, Leads, LeadsOn};
ghost use Rattle.grammar.specs.Sound.{Acyclic, Ordered};
ghost use Rattle.grammar.specs.Model.{production as production_of, productions as productions_of, rule as rule_of, rules as rules_of};
ghost use Rattle.bitset.specs.Bits.{Has};
ghost use Rattle.bitset.specs.Relations.{Holds};
ghost use Rattle.derivations.specs.Ranges.{Lefts, Between, Numbers};
ghost use Rattle.derivations.specs.Steps.{EveryIn, OthersIn, Passes, Prefers, Adds, Gathers};

use bitset::growing::grown;
use bitset::rows::Rows;
use bitset::{contains, with};
use grammar::production::Production;
use grammar::rule::{Relation, Rule};

// Whether every symbol is in the set.
fn all_in(symbols: &[u8], set: u32) -> bool
    ensures yes { result ≡ true → EveryIn set symbols.now }
    ensures no { result ≡ false → ¬ EveryIn set symbols.now }
{
    symbols.iter().all(|symbol| contains(set, *symbol as usize))
}

// The set with the left side of the production, if every symbol of the right side is in the set.
fn with_production(set: u32, p: &Production) -> u32
    requires { Nonterminal (production_of p.now).left }
    ensures holds { (s : ℕ) →
        Has result s ↔ (Has set s ⊎ ((s ≡ (production_of p.now).left) × EveryIn set (production_of p.now).right)) }
    ensures grows { set ≤ result }
{
    if all_in(p.right(), set) {
        with(set, p.left() as usize)
    } else {
        set
    }
}

// The set of the nonterminals that derive the empty list.
pub fn nullable(productions: &[Production]) -> u32
    requires { Lefts (productions_of productions.now) }
    ensures { (s : ℕ) → Has result s ↔ Nullable (productions_of productions.now) s }
{
    grown(
        productions.len(),
        |set, k| with_production(set, &productions[k]),
    )
}

// Whether every symbol but the one at k is in the set.
fn others_in(right: &[u8], k: usize, set: u32) -> bool
    requires { k < length right.now }
    ensures yes { result ≡ true → OthersIn set right.now k }
    ensures no { result ≡ false → ¬ OthersIn set right.now k }
{
    all_in(&right[..k], set) && all_in(&right[k + 1..], set)
}

// Relates the left side to each nonterminal of the right side, if all other symbols are in the set.
fn put_places(rows: &mut Rows, p: &Production, set: u32)
    requires { Nonterminal (production_of p.now).left }
    ensures { Gathers (Holds rows.old) (Holds rows.new) (length (production_of p.now).right)
        (Passes set (production_of p.now)) }
{
    let right = p.right();
    for (k, symbol) in right.iter().enumerate() {
        if *symbol < 16 && others_in(right, k, set) {
            rows.put(p.left() as usize, *symbol as usize);
        }
    }
}

// Which nonterminals lead to which in one step.
pub fn leads(productions: &[Production]) -> Rows
    requires { Lefts (productions_of productions.now) }
    ensures { (A B : ℕ) → Holds result A B ↔ Leads (productions_of productions.now) A B }
{
    let set = nullable(productions);
    let mut rows = Rows::empty();
    for p in productions {
        put_places(&mut rows, p, set);
    }
    rows
}

// Whether a nonterminal leads to itself, in one step or more.
pub fn leads_to_itself(productions: &[Production]) -> bool
    requires { Lefts (productions_of productions.now) }
    ensures yes { result ≡ true → ((A : ℕ) × LeadsOn (productions_of productions.now) A A) }
    ensures no { result ≡ false → Acyclic (productions_of productions.now) }
{
    let mut rows = leads(productions);
    rows.close();
    rows.has_loop()
}

// Relates the upper production to the lower one, if the rule is a priority.
fn put_rule(rows: &mut Rows, rule: &Rule)
    requires { Between rule.now }
    ensures { Adds (Holds rows.old) (Holds rows.new) (Prefers (rule_of rule.now)) }
{
    if rule.relation == Relation::Priority {
        rows.put(rule.upper as usize - 1, rule.lower as usize - 1);
    }
}

// Which productions have priority over which, by the rules or by what follows from them.
pub fn above(rules: &[Rule]) -> Rows
    requires { Numbers rules.now }
    ensures { (p q : ℕ) → Holds result p q ↔ Above (rules_of rules.now) p q }
{
    let mut rows = Rows::empty();
    for rule in rules {
        put_rule(&mut rows, rule);
    }
    rows.close();
    rows
}

// Whether a production has priority over itself.
pub fn above_itself(rules: &[Rule]) -> bool
    requires { Numbers rules.now }
    ensures yes { result ≡ true → ((p : ℕ) × Above (rules_of rules.now) p p) }
    ensures no { result ≡ false → Ordered (rules_of rules.now) }
{
    above(rules).has_loop()
}
