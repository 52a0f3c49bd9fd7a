ghost use Rattle.walk.specs.Verdicts.{BothScores};

use super::ScoreTables;
use crate::scores::Scores;
use grammar::refusals::ReadingRefusal;
use reading::reading::Reading;
use scales::values::{Count, Price};

impl ScoreTables {
    // Tables whose entries are all 0.
    pub(crate) fn new() -> ScoreTables {
        ScoreTables {
            counts: [Count { value: 0 }; 8000],
            prices: [Price { value: 0 }; 8000],
        }
    }

    // How many trees the words that stand have, and the smallest price of one.
    pub(crate) fn scores(&mut self, reading: &Reading) -> Result<Scores, ReadingRefusal>
        ensures { BothScores reading.now result }
    {
        let count = reading.score(&mut self.counts)?;
        let price = reading.score(&mut self.prices)?;
        Ok(Scores {
            trees: count.value,
            price: price.value,
        })
    }
}
