ghost use Rattle.std.specs.Prelude.{◌<◌, length, OnSome};

use crate::conflicts::Conflicts;
use crate::position::Position;
use draft::draft::Draft;
use files::spelled::SpelledDraft;
use grammar::production::Production;
use spellings::spellings::Spellings;
use std::alloc::{AllocError, Global};
use std::collections::HashMap;

// For each position the productions that may stand there.
type Children = HashMap<Position, Vec<u8>>;

// A draft with its spellings, for each position the productions that may stand there, the productions of the start
// symbol, and for each production that has a conflict-free tree the fewest words of one. Productions go by their numbers.
#[derive(Drop)]
pub struct Book {
    draft: Draft,
    spellings: Spellings,
    children: Children,
    roots: Vec<u8>,
    fewest: HashMap<u8, usize>,
}

// The productions of a nonterminal.
fn productions_of(heap: Global, draft: &Draft, nonterminal: u8) -> Result<Vec<u8>, AllocError> {
    (1..=32)
        .zip(draft.productions())
        .filter(|(_, production)| production.left() == nonterminal)
        .map(|(number, _)| number)
        .collect(heap)
}

// The productions that may stand at a position of a parent with this right side. (The heap, the draft and the conflicts, here
// and below: a struct of them would be there to make one map.)
fn children_at(
    heap: Global,
    draft: &Draft,
    conflicts: &Conflicts,
    at: Position,
    right: &[u8],
) -> Result<Vec<u8>, AllocError>
    requires { at.index < length right.now }
{
    let mut children = productions_of(heap, draft, right[at.index])?;
    children.retain(|child| !conflicts.forbid(at, right.len(), *child));
    Ok(children)
}

// The productions that may stand at the positions of the production, which has this right side.
fn children_below(
    heap: Global,
    draft: &Draft,
    conflicts: &Conflicts,
    production: u8,
    right: &[u8],
) -> Result<Children, AllocError> {
    let mut children = HashMap::new(heap);
    // (by index: `children_at` asks by position)
    for index in 0..right.len() {
        let at = Position { production, index };
        children.insert(at, children_at(heap, draft, conflicts, at, right)?)?;
    }
    Ok(children)
}

// The productions that may stand at the positions of all productions.
fn children_of_all(
    heap: Global,
    draft: &Draft,
    conflicts: &Conflicts,
) -> Result<Children, AllocError> {
    let mut children = HashMap::new(heap);
    for (production, parent) in (1..=32).zip(draft.productions()) {
        children.extend(children_below(heap, draft, conflicts, production, parent.right())?)?;
    }
    Ok(children)
}

impl Book {
    // The book of a spelled draft. A tree with the fewest words has no production twice on a way down, so that it has at most 32
    // levels, and each round takes in the trees with one level more.
    pub(crate) fn new(heap: Global, spelled: SpelledDraft) -> Result<Book, AllocError> {
        let SpelledDraft { draft, spellings } = spelled;
        let conflicts = Conflicts::new(heap, &draft)?;
        let children = children_of_all(heap, &draft, &conflicts)?;
        let roots = productions_of(heap, &draft, draft.start())?;
        let mut book = Book {
            draft,
            spellings,
            children,
            roots,
            fewest: HashMap::new(heap),
        };
        for _ in 0..32 {
            book.fewest = book.fewest_of_all(heap)?;
        }
        Ok(book)
    }

    // What `fewest` is with the trees of one level more taken in.
    fn fewest_of_all(&self, heap: Global) -> Result<HashMap<u8, usize>, AllocError> {
        (1..=32)
            .filter_map(|production| {
                let fewest = self.fewest_from(Position::first(production))?;
                Some((production, fewest))
            })
            .collect(heap)
    }

    // What its kinds are spelled like.
    pub(crate) fn spellings(&self) -> &Spellings {
        &self.spellings
    }

    // How many places the productions have: one more than symbols on the right, for each.
    pub(crate) fn place_count(&self) -> usize {
        self.draft.place_count()
    }

    // The production of a number.
    fn production(&self, number: u8) -> Option<Production> {
        self.draft.production(usize::from(number))
    }

    // The productions of the start symbol.
    pub(crate) fn roots(&self) -> &[u8] {
        self.roots.as_slice()
    }

    // The price of the production of a number.
    pub(crate) fn price(&self, number: u8) -> Option<u32> {
        let production = self.production(number)?;
        Some(u32::from(production.price()))
    }

    // The symbol at a position.
    pub(crate) fn symbol(&self, at: Position) -> Option<u8>
        ensures { OnSome result (at.index < 6) }
    {
        let production = self.production(at.production)?;
        production.right().get(at.index).copied()
    }

    // The productions that may stand at a position, by their numbers.
    pub(crate) fn children(&self, at: Position) -> &[u8] {
        match self.children.get(&at) {
            Some(children) => children.as_slice(),
            None => &[],
        }
    }

    // The fewest words of what may stand at the position, which holds the symbol; none where no tree can.
    fn fewest_at(&self, at: Position, symbol: u8) -> Option<usize> {
        if symbol >= 16 {
            return Some(1);
        }
        self.children(at)
            .iter()
            .filter_map(|child| self.fewest.get(child).copied())
            .min()
    }

    // The fewest words of what may stand at the position and behind it; none where no trees can.
    pub(crate) fn fewest_from(&self, at: Position) -> Option<usize> {
        let production = at.production;
        let parent = self.production(production)?;
        parent
            .right()
            .iter()
            .enumerate()
            .skip(at.index)
            .try_fold(0usize, |sum, (index, symbol)| {
                let fewest = self.fewest_at(Position { production, index }, *symbol)?;
                Some(sum.saturating_add(fewest))
            })
    }

    // Whether trees can stand at the position and behind it.
    pub(crate) fn can_end(&self, at: Position) -> bool {
        self.fewest_from(at).is_some()
    }
}
