ghost use Rattle.std.specs.Prelude.{List, [], ◌∷◌, ◌++◌};
ghost use Rattle.syntax.specs.Model.{symbol};
ghost use Rattle.syntax.specs.Syntax.{Symbol as Written};
ghost use Rattle.spellings.specs.Model.{words};
ghost use Rattle.spellings.specs.Reading.{Gathers, ReadsRight};

use crate::right::{PricedRight, RightFault};
use crate::spellings::Spellings;
use file_lines::reading::at_semicolon;
use grammar::bytes::Bytes;
use syntax::reading::{cut_at, read_number, read_symbol};
use syntax::spelling::Symbol;

// What is kept of a right side with one symbol more; a symbol that is not declared is told before a right side that is too long.
fn gather(
    kept: Result<Bytes<6>, RightFault>,
    written: &Symbol,
    spellings: &Spellings,
) -> Result<Bytes<6>, RightFault>
    ensures { (ss : List Written) →
        Gathers (words spellings.now) ss kept →
        Gathers (words spellings.now) (ss ++ symbol written.now ∷ []) result }
{
    // (with `ok_or(..)?` the refusal's clause stays open)
    let Some(symbol) = spellings.resolve(written) else {
        return Err(RightFault::Undeclared);
    };
    let mut right = kept?;
    if right.is_full() {
        return Err(RightFault::Long);
    }
    right.push(symbol);
    Ok(right)
}

// The right side and the price of a production line, from what stands behind its sign =; none where that has no such form.
pub fn read_right(text: &[u8], spellings: &Spellings) -> Option<PricedRight>
    ensures { ReadsRight (words spellings.now) text.now result }
{
    let mut right = Ok(Bytes::empty());
    let mut rest = text;
    // (a loop: the parts end at the semicolon, and each may refuse the line)
    while !at_semicolon(rest) {
        let (part, behind) = cut_at(rest, b' ')?;
        let symbol = read_symbol(part)?;
        right = gather(right, &symbol, spellings);
        rest = behind;
    }
    // (what stands behind the semicolon and its space, at which the loop ended; by `strip_prefix` it would be a loop without a test)
    let price = read_number(&rest[2..])?;
    Some(PricedRight { right, price })
}
