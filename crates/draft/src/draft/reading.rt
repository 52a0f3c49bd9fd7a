ghost use Rattle.std.specs.Prelude.{◌≡◌, ℕ, ◌-◌, ◌<◌, true, false, length, MatchOption};
ghost use Rattle.grammar.specs.Grammar.{places, production_at, rule_at};
ghost use Rattle.grammar.specs.Model.{production, productions, rule, rules};
ghost use Rattle.draft.specs.Model.{model};
ghost use Rattle.draft.specs.Calls.{Names};
ghost use Rattle.draft.specs.Stored.{Numbers};

use super::Draft;
use grammar::production::{Production, place_count};
use grammar::rule::Rule;

impl Draft {
    // The start symbol.
    pub fn start(&self) -> u8
        ensures { result ≡ (model self.now).start }
    {
        self.start
    }

    // How many productions there are.
    pub fn production_count(&self) -> usize
        ensures { result ≡ length (model self.now).productions }
    {
        self.productions.len()
    }

    // How many rules there are.
    pub fn rule_count(&self) -> usize
        ensures { result ≡ length (model self.now).rules }
    {
        self.rules.len()
    }

    // The production of a number, which counts from 1; none where no production has it.
    pub fn production(&self, number: usize) -> Option<Production>
        ensures { MatchOption result (¬ Names (length (model self.now).productions) number)
            (λ p. Names (length (model self.now).productions) number × (production p ≡ production_at (model self.now).productions (number - 1))) }
    {
        let index = number.checked_sub(1)?;
        self.productions().get(index).copied()
    }

    // The productions in the order of acceptance.
    pub fn productions(&self) -> &[Production]
        ensures { productions result.now ≡ (model self.now).productions }
    {
        self.productions.as_slice()
    }

    // The rules in the order of acceptance. Each has the numbers of two productions, which count from 1.
    pub fn rules(&self) -> &[Rule]
        ensures rules { rules result.now ≡ (model self.now).rules }
        ensures numbers { Numbers result.now (length result.now) (length (model self.now).productions) }
    {
        self.rules.as_slice()
    }

    // The rule of a number, which counts from 1 in the order of acceptance; none where no rule has it.
    pub fn rule(&self, number: usize) -> Option<Rule>
        ensures { MatchOption result (¬ Names (length (model self.now).rules) number)
            (λ x. Names (length (model self.now).rules) number × (rule x ≡ rule_at (model self.now).rules (number - 1)) × (0 < x.upper) × (0 < x.lower)) }
    {
        let index = number.checked_sub(1)?;
        self.rules().get(index).copied()
    }

    // How many places the productions have: one more than symbols on the right, for each.
    pub fn place_count(&self) -> usize
        ensures { result ≡ places (model self.now).productions }
    {
        place_count(self.productions())
    }
}
