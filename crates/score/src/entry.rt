ghost use Rattle.std.specs.Prelude.{◌≤◌};

// The words from `start` to `end`.
#[derive(Clone, Copy)]
pub(crate) struct Span {
    pub(crate) start: usize,
    pub(crate) end: usize,
    ghost ordered: { start ≤ end },
}

// An entry of the table: the ways of the symbols of the production before the dot over the span. That the input has it stands in
// each contract, as it does of a span and of a production's number alone (a value that held its input would have to be shown to be
// one of these sums').
#[derive(Clone, Copy)]
pub(crate) struct Entry {
    pub(crate) production: usize,
    pub(crate) dot: usize,
    pub(crate) span: Span,
}
