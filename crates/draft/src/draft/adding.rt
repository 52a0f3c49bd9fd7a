ghost use Rattle.std.specs.Prelude.{◌≡◌, ℕ, ◌<◌, ◌≤◌, true, false, length, ◌≢◌, MatchResult};
ghost use Rattle.grammar.specs.Grammar.{empty_grammar};
ghost use Rattle.grammar.specs.Model.{production};
ghost use Rattle.grammar.specs.declared.refusals.DraftRefusal.TheVariants.{NoProduction};
ghost use Rattle.draft.specs.Calls.{
  SetsStart,
  OutOfRange,
  NoRoom,
  Repeats,
  AddsProduction,
  Names,
  RepeatsRule,
  AddsRule,
};
ghost use Rattle.draft.specs.Model.{model};
ghost use Rattle.draft.specs.Stored.{SameRule};

use super::Draft;
use arrayvec::ArrayVec;
use derivations::{above_itself, leads_to_itself};
use grammar::production::Production;
use grammar::refusals::DraftRefusal;
use grammar::rule::{Relation, Rule};

// Whether the left side is a nonterminal, and each symbol of the right side a nonterminal or a kind.
fn in_range(left: u8, right: &[u8]) -> bool
    ensures yes { result ≡ true → ¬ OutOfRange (record { left = left; right = right.now; price = 0 }) }
    ensures no { result ≡ false → OutOfRange (record { left = left; right = right.now; price = 0 }) }
{
    left <= 15 && right.iter().all(|symbol| *symbol <= 47)
}

// Whether the two productions have the same two sides.
fn same_sides(p: &Production, other: &Production) -> bool
    ensures yes { result ≡ true → ((production p.now).left ≡ (production other.now).left) × ((production p.now).right ≡ (production other.now).right) }
    ensures no { result ≡ false → (production p.now).left ≡ (production other.now).left → (production p.now).right ≢ (production other.now).right }
{
    p.left() == other.left() && p.right() == other.right()
}

// Whether the rule says what the other says; an associativity counts both ways round.
fn same_rule(rule: &Rule, other: &Rule) -> bool
    ensures yes { result ≡ true → SameRule rule.now other.now.upper other.now.relation other.now.lower }
    ensures no { result ≡ false → ¬ SameRule rule.now other.now.upper other.now.relation other.now.lower }
{
    let mirrored = Rule {
        upper: rule.lower,
        relation: rule.relation,
        lower: rule.upper,
    };
    rule == other || rule.relation != Relation::Priority && mirrored == *other
}

impl Draft {
    // A draft with no productions and no rules, whose start symbol is 0.
    pub fn new() -> Draft
        ensures { model result ≡ empty_grammar }
    {
        Draft {
            start: 0,
            productions: ArrayVec::new(),
            rules: ArrayVec::new(),
        }
    }

    // Makes a nonterminal the start symbol, and answers it.
    pub fn set_start(&mut self, symbol: u8) -> Result<u8, DraftRefusal>
        ensures { SetsStart (model self.old) symbol result (model self.new) }
    {
        if symbol > 15 {
            return Err(DraftRefusal::Symbol);
        }
        self.start = symbol;
        Ok(symbol)
    }

    // Whether a production with the two sides of this one is there.
    fn has_sides(&self, other: &Production) -> bool
        ensures yes { result ≡ true → Repeats (model self.now) (production other.now) }
        ensures no { result ≡ false → ¬ Repeats (model self.now) (production other.now) }
    {
        self.productions().iter().any(|p| same_sides(p, other))
    }

    // Whether the rules say what this one says.
    fn has_rule(&self, other: &Rule) -> bool
        ensures yes { result ≡ true → RepeatsRule (model self.now) other.now.upper other.now.relation other.now.lower }
        ensures no { result ≡ false → ¬ RepeatsRule (model self.now) other.now.upper other.now.relation other.now.lower }
    {
        self.rules().iter().any(|rule| same_rule(rule, other))
    }

    // Whether there is room for the production and its places.
    fn has_room(&self, p: &Production) -> bool
        ensures yes { result ≡ true → ¬ NoRoom (model self.now) (production p.now) }
        ensures no { result ≡ false → NoRoom (model self.now) (production p.now) }
    {
        !self.productions.is_full() && self.place_count() + p.places() <= 128
    }

    // Adds a production that is in range, has room and repeats none, unless a nonterminal would then lead to itself.
    fn accept_production(&mut self, p: Production) -> Result<u8, DraftRefusal>
        requires range { ¬ OutOfRange (production p) }
        requires room { ¬ NoRoom (model self.old) (production p) }
        requires fresh { ¬ Repeats (model self.old) (production p) }
        ensures { AddsProduction (model self.old) (production p) result (model self.new) }
    {
        self.productions.push(p);
        if leads_to_itself(self.productions.as_slice()) {
            self.productions.pop();
            return Err(DraftRefusal::LeadsToItself);
        }
        Ok(self.productions.len() as u8)
    }

    // Adds a production, and answers its number, which counts from 1.
    pub fn add_production(&mut self, left: u8, right: &[u8], price: u16) -> Result<u8, DraftRefusal>
        ensures { AddsProduction (model self.old) (record { left = left; right = right.now; price = price }) result
            (model self.new) }
    {
        if !in_range(left, right) {
            return Err(DraftRefusal::Symbol);
        }
        let production = Production::new(left, right, price).ok_or(DraftRefusal::LongRight)?;
        if !self.has_room(&production) {
            return Err(DraftRefusal::Full);
        }
        if self.has_sides(&production) {
            return Err(DraftRefusal::Repeated);
        }
        self.accept_production(production)
    }

    // Adds a rule between two productions that there are, unless one would then have priority over itself. (It is not one function with
    // `accept_production`: the list, its model, the test and the refusal all differ.)
    fn accept_rule(&mut self, rule: Rule) -> Result<u8, DraftRefusal>
        requires upper { Names (length (model self.old).productions) rule.upper }
        requires lower { Names (length (model self.old).productions) rule.lower }
        requires room { length (model self.old).rules < 64 }
        requires fresh { ¬ RepeatsRule (model self.old) rule.upper rule.relation rule.lower }
        ensures { AddsRule (model self.old) rule.upper rule.relation rule.lower result (model self.new) }
    {
        self.rules.push(rule);
        if above_itself(self.rules.as_slice()) {
            self.rules.pop();
            return Err(DraftRefusal::AboveItself);
        }
        Ok(self.rules.len() as u8)
    }

    // The number as rules hold it, if it is a production's.
    fn named(&self, number: u16) -> Result<u8, DraftRefusal>
        ensures { MatchResult result (λ n. (n ≡ number) × Names (length (model self.now).productions) n) (λ e. (e ≡ NoProduction) × ¬ Names (length (model self.now).productions) number) }
    {
        match u8::try_from(number) {
            Ok(named) if named > 0 && usize::from(named) <= self.productions.len() => Ok(named),
            _ => Err(DraftRefusal::NoProduction),
        }
    }

    // Adds a rule between the productions of two numbers, and answers how many rules there are then. (A rule that is there names
    // productions, so that looking for them first refuses none that repeats one.)
    pub fn add_rule(
        &mut self,
        upper: u16,
        relation: Relation,
        lower: u16,
    ) -> Result<u8, DraftRefusal>
        ensures { AddsRule (model self.old) upper relation lower result (model self.new) }
    {
        let rule = Rule {
            upper: self.named(upper)?,
            relation,
            lower: self.named(lower)?,
        };
        if self.has_rule(&rule) {
            return Err(DraftRefusal::Repeated);
        }
        if self.rules.is_full() {
            return Err(DraftRefusal::RulesFull);
        }
        self.accept_rule(rule)
    }
}
