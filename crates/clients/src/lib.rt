//! Clients of a reading: each takes any sealed grammar and a lent chart, and its contract says what it answers for a small grammar.
//!
//! The grammar and the chart are the caller's and lent to each client alone, and that a short chart is refused is each one's own promise: no
//! struct of both would say it for them.

#![tactic(auto)]

pub mod lines;

ghost use Rattle.std.specs.Prelude.{◌≡◌, ◌*◌, ◌≤◌, ◌++◌, length, drop, Ok, Err};
ghost use Rattle.grammar.specs.declared.refusals.ReadingRefusal.TheVariants.{NothingBegins, ShortChart};
ghost use Rattle.grammar.specs.Grammar.{empty_grammar, with_start, places};
ghost use Rattle.draft.specs.Sealed.{sealed_model};
ghost use Rattle.reading.specs.Readings.{Long};
ghost use Rattle.small_grammars.specs.Grammars.{conditions_grammar, unruled_conditions_grammar, commands_grammar, nonassociative_grammar, left_and_right_grammar};
ghost use Rattle.clients.specs.Answers.{conditions_answers, or_and_listing};

use crate::lines::{list_words, score_words};
use draft::draft::Draft;
use draft::sealed::Grammar;
use grammar::refusals::ReadingRefusal;
use listing_theory::record::Record;
use reading::reading::Reading;
use scales::values::{Count, Price};

// The answers of three looks, as `look` gives them: after no words, after NAME, and after "(" and NAME.
#[derive(Clone, Copy)]
pub struct Seen {
    pub empty: (bool, u32),
    pub name: (bool, u32),
    pub open_name: (bool, u32),
}

// Looks at the empty line, at NAME and at "(" NAME, where 19 is the kind "(" and 21 the kind NAME.
pub fn conditions_seen(grammar: &Grammar, chart: &mut [u64]) -> Result<Seen, ReadingRefusal>
    ensures conditions { sealed_model grammar.now ≡ conditions_grammar → Long chart.old → result ≡ Ok conditions_answers }
    ensures short { (¬ Long chart.old) → result ≡ Err ShortChart }
{
    let mut reading = Reading::open(grammar, chart);
    let empty = reading.look()?;
    reading.put(21)?;
    let name = reading.look()?;
    reading.take_back()?;
    reading.put(19)?;
    reading.put(21)?;
    let open_name = reading.look()?;
    Ok(Seen {
        empty,
        name,
        open_name,
    })
}

// Puts "go", the kind 16, first. The only production of commands that begins with it is not live.
pub fn go_refused(grammar: &Grammar, chart: &mut [u64]) -> Result<u8, ReadingRefusal>
    ensures commands { sealed_model grammar.now ≡ commands_grammar → Long chart.old → result ≡ Err NothingBegins }
    ensures short { (¬ Long chart.old) → result ≡ Err ShortChart }
{
    Reading::open(grammar, chart).put(16)
}

// Answers the second "is" after NAME "is" NAME, where 16 is the kind "is" and 17 the kind NAME.
pub fn second_is_refused(grammar: &Grammar, chart: &mut [u64]) -> Result<u8, ReadingRefusal>
    ensures nonassociative { sealed_model grammar.now ≡ nonassociative_grammar → Long chart.old → result ≡ Err NothingBegins }
    ensures left_and_right { sealed_model grammar.now ≡ left_and_right_grammar → Long chart.old → result ≡ Err NothingBegins }
    ensures short { (¬ Long chart.old) → result ≡ Err ShortChart }
{
    let mut reading = Reading::open(grammar, chart);
    reading.put(17)?;
    reading.put(16)?;
    reading.put(17)?;
    reading.put(16)
}

// NAME "or" NAME "and" NAME, where 16 is the kind "or", 17 the kind "and" and 21 the kind NAME.
const OR_AND: [u8; 5] = [21, 16, 21, 17, 21];

// Lists NAME "or" NAME "and" NAME.
pub fn or_and_listed(
    grammar: &Grammar,
    chart: &mut [u64],
    records: &mut [Record],
) -> Result<usize, ReadingRefusal>
    ensures conditions { sealed_model grammar.now ≡ conditions_grammar →
        Long chart.old →
        5 ≤ length records.old →
        (result ≡ Ok 5) × (records.new ≡ or_and_listing ++ drop 5 records.old) }
    ensures short { (¬ Long chart.old) → result ≡ Err ShortChart }
{
    list_words(grammar, &OR_AND, chart, records)
}

// Answers the smallest price of NAME "or" NAME "and" NAME. (Not one function with the next: each is an example with a value of its own.)
pub fn or_and_priced(
    grammar: &Grammar,
    chart: &mut [u64],
    prices: &mut [Price],
) -> Result<Price, ReadingRefusal>
    ensures conditions { sealed_model grammar.now ≡ conditions_grammar →
        Long chart.old →
        places conditions_grammar.productions * 36 ≤ length prices.old →
        (v : Price) × (result ≡ Ok v) × (v.value ≡ 8) }
    ensures short { (¬ Long chart.old) → result ≡ Err ShortChart }
{
    score_words(grammar, &OR_AND, chart, prices)
}

// Counts the trees of NAME "or" NAME "and" NAME.
pub fn or_and_counted(
    grammar: &Grammar,
    chart: &mut [u64],
    counts: &mut [Count],
) -> Result<Count, ReadingRefusal>
    ensures conditions { sealed_model grammar.now ≡ conditions_grammar →
        Long chart.old →
        places conditions_grammar.productions * 36 ≤ length counts.old →
        (v : Count) × (result ≡ Ok v) × (v.value ≡ 1) }
    ensures unruled { sealed_model grammar.now ≡ unruled_conditions_grammar →
        Long chart.old →
        places unruled_conditions_grammar.productions * 36 ≤ length counts.old →
        (v : Count) × (result ≡ Ok v) × (v.value ≡ 2) }
    ensures short { (¬ Long chart.old) → result ≡ Err ShortChart }
{
    score_words(grammar, &OR_AND, chart, counts)
}

// Seals a draft without productions whose start symbol is 1.
pub fn sealed_start() -> Grammar
    ensures { sealed_model result ≡ with_start empty_grammar 1 }
{
    let mut draft = Draft::new();
    let _ = draft.set_start(1);
    draft.seal()
}

// Puts a word, ends the reading, and answers how long the chart is that comes back.
pub fn chart_length<'b, 'c>(grammar: &'b Grammar, chart: &'c mut [u64]) -> usize
    ensures { result ≡ length chart.old }
{
    let mut reading = Reading::open(grammar, chart);
    let _ = reading.put(16);
    let chart = reading.end();
    chart.len()
}
