ghost use Rattle.std.specs.Prelude.{Some};
ghost use Rattle.walk.specs.Verdicts.{line_report, scores_report};

use lines::fault::LineFault;
use std::fmt;

// How many trees words have, and the smallest price of one.
#[derive(Clone, Copy, PartialEq, Eq, Debug)]
pub struct Scores {
    pub trees: u32,
    pub price: u32,
}

impl fmt::Display for Scores {
    ghost output = { λ s. Some (scores_report s) };

    fn fmt<W: fmt::Write>(&self, f: &mut fmt::Formatter<W>) -> fmt::Result {
        let Scores { trees, price } = self;
        write!(f, "ok trees {trees} price {price}")
    }
}

// What a line of words is, with the number of the line, which counts from 1.
#[derive(Clone, Copy, PartialEq, Eq, Debug)]
pub struct LineReport {
    pub line: u64,
    pub verdict: Result<Scores, LineFault>,
}

impl fmt::Display for LineReport {
    ghost output = { λ r. Some (line_report r) };

    fn fmt<W: fmt::Write>(&self, f: &mut fmt::Formatter<W>) -> fmt::Result {
        let line = self.line;
        match &self.verdict {
            Ok(scores) => write!(f, "{line} {scores}"),
            Err(fault) => write!(f, "{line} {fault}"),
        }
    }
}
