// A node of a tree: the number of its production, which counts from 1, and where its words begin and end.
#[derive(Clone, Copy, PartialEq, Eq, Debug)]
pub struct Record {
    pub production: u8,
    pub start: u8,
    pub end: u8,
}
