use crate::position::Position;
use draft::draft::Draft;
use grammar::rule::{Relation, Rule};
use std::alloc::{AllocError, Global};
use std::collections::HashSet;

// A set of pairs of production numbers.
type Pairs = HashSet<(u8, u8)>;

// Which production may not stand below which, by their numbers.
#[derive(Drop)]
pub struct Conflicts {
    anywhere: Pairs,
    first: Pairs,
    last: Pairs,
}

// Adds that p has priority over q, and over all that q is known to have priority over. (by number: the set changes)
fn put_above(above: &mut Pairs, p: u8, q: u8) -> Result<(), AllocError> {
    above.insert((p, q))?;
    for r in 1..=32 {
        if above.contains(&(q, r)) {
            above.insert((p, r))?;
        }
    }
    Ok(())
}

// Adds the pair both ways round.
fn put_both(pairs: &mut Pairs, p: u8, q: u8) -> Result<(), AllocError> {
    pairs.insert((p, q))?;
    pairs.insert((q, p))?;
    Ok(())
}

impl Conflicts {
    // Adds what a rule says.
    fn add(&mut self, rule: Rule) -> Result<(), AllocError> {
        let Rule {
            upper,
            relation,
            lower,
        } = rule;
        match relation {
            Relation::Priority => put_above(&mut self.anywhere, upper, lower),
            Relation::Left => put_both(&mut self.last, upper, lower),
            Relation::Right => put_both(&mut self.first, upper, lower),
            Relation::NonAssoc => {
                put_both(&mut self.first, upper, lower)?;
                put_both(&mut self.last, upper, lower)
            }
        }
    }

    // Adds what each rule says.
    fn add_all(&mut self, draft: &Draft) -> Result<(), AllocError> {
        for rule in draft.rules() {
            self.add(*rule)?;
        }
        Ok(())
    }

    // The conflicts of a draft. A chain of priorities from one production to another has at most 31 rules, and each
    // round makes the known chains longer by one rule at least.
    pub(crate) fn new(heap: Global, draft: &Draft) -> Result<Conflicts, AllocError> {
        let mut conflicts = Conflicts {
            anywhere: HashSet::new(heap),
            first: HashSet::new(heap),
            last: HashSet::new(heap),
        };
        for _ in 0..32 {
            conflicts.add_all(draft)?;
        }
        Ok(conflicts)
    }

    // Whether the child may not stand at the position of a parent with this many symbols on the right.
    pub(crate) fn forbid(&self, at: Position, size: usize, child: u8) -> bool {
        let pair = (at.production, child);
        self.anywhere.contains(&pair)
            || size >= 2 && at.index == 0 && self.first.contains(&pair)
            || size >= 2 && at.index == size - 1 && self.last.contains(&pair)
    }
}
