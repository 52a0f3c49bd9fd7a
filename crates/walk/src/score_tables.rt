ghost use Rattle.std.specs.Prelude.{◌≡◌, length};

use scales::values::{Count, Price};

mod methods;

// The tables in which the trees of a line are counted and their smallest price is found, of 8,000 entries each.
#[derive(Drop)]
pub struct ScoreTables {
    counts: [Count; 8000],
    prices: [Price; 8000],
    ghost count_room: { length counts ≡ 8000 },
    ghost price_room: { length prices ≡ 8000 },
}
