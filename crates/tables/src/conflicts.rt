ghost use Rattle.std.specs.Prelude.{◌≡◌, true, false};
ghost use Rattle.grammar.specs.Model.{rule as rule_of, rules as rules_of};
ghost use Rattle.grammar.specs.Order.{Beside, Conflict};
ghost use Rattle.tables.specs.Conflicts.{Relates, Barred, InGrammars};

use crate::source::Source;
use grammar::rule::{Relation, Rule};

// Whether the rule has this relation between the two productions, either way round. (`Relates` is of every relation, and its numbers
// count from 0; the model subtracts so too.)
fn relates(rule: &Rule, p: usize, relation: Relation, q: usize) -> bool
    ensures yes { result ≡ true → Relates (rule_of rule.now) p relation q }
    ensures no { result ≡ false → ¬ Relates (rule_of rule.now) p relation q }
{
    let upper = (rule.upper as usize).saturating_sub(1);
    let lower = (rule.lower as usize).saturating_sub(1);
    rule.relation == relation && (upper == p && lower == q || upper == q && lower == p)
}

// Whether a rule has this relation between the two productions, either way round. (The three go apart: `barred` asks for two relations
// of the same two productions.)
fn beside(rules: &[Rule], p: usize, relation: Relation, q: usize) -> bool
    ensures yes { result ≡ true → Beside (rules_of rules.now) p relation q }
    ensures no { result ≡ false → ¬ Beside (rules_of rules.now) p relation q }
{
    rules.iter().any(|rule| relates(rule, p, relation, q))
}

// Whether the two productions associate by this relation or not at all.
fn barred(rules: &[Rule], p: usize, relation: Relation, q: usize) -> bool
    ensures yes { result ≡ true → Barred (rules_of rules.now) p relation q }
    ensures no { result ≡ false → ¬ Barred (rules_of rules.now) p relation q }
{
    beside(rules, p, relation, q) || beside(rules, p, Relation::NonAssoc, q)
}

impl Source<'_, '_> {
    // Whether the production q may not stand at position k of the production p, whose right side has this size.
    pub(crate) fn conflict(&self, p: usize, size: usize, k: usize, q: usize) -> bool
        ensures yes { result ≡ true → InGrammars (rules_of self.now.rules.now) p size (λ g. Conflict g p k q) }
        ensures no { result ≡ false → InGrammars (rules_of self.now.rules.now) p size (λ g. ¬ Conflict g p k q) }
    {
        self.order.has(p, q)
            || size >= 2
                && (k == 0 && barred(self.rules, p, Relation::Right, q)
                    || k == size - 1 && barred(self.rules, p, Relation::Left, q))
    }
}
