// What a rule says of two productions: that the upper one has priority over the lower one, or that the two
// associate to the left, to the right or not at all.
#[derive(Clone, Copy, PartialEq, Eq, Debug, Default)]
pub enum Relation {
    #[default]
    Priority,
    Left,
    Right,
    NonAssoc,
}

// A rule between two productions, by their numbers, which count from 1. (The default is what stands in the free places of a list.)
#[derive(Clone, Copy, PartialEq, Eq, Debug, Default)]
pub struct Rule {
    pub upper: u8,
    pub relation: Relation,
    pub lower: u8,
}
