//! Readings: words put one by one against a sealed grammar, on a chart that the caller lends.

#![tactic(auto)]

pub mod reading;

ghost use Rattle.std.specs.Prelude.{◌≡◌, true, false};
ghost use Rattle.reading.specs.Readings.{Long};

use chart::CELL_COUNT;

// Whether the chart is long enough for a reading: 4802 cells.
pub fn chart_fits(chart: &[u64]) -> bool
    ensures yes { result ≡ true → Long chart.now }
    ensures no { result ≡ false → ¬ Long chart.now }
{
    chart.len() >= CELL_COUNT
}
