use draft::sealed::Grammar;
use grammar::bytes::Bytes;

mod methods;

// How many words stand at most.
const MOST_WORDS: usize = 48;

// A reading of a sealed grammar: the words that stand, by their kinds, and the chart of them in the caller's cells.
#[derive(Drop)]
pub struct Reading<'b, 'c> {
    grammar: &'b Grammar,
    chart: &'c mut [u64],
    line: Bytes<MOST_WORDS>,
}
