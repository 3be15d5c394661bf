//! An expression: items joined by commas.
ghost use Rattle.std.specs.Prelude.{◌≡◌};
ghost use Rattle.numbers.specs.Answers.{judged_by, Placed};
ghost use Rattle.verdict.specs.Items.{expression};
ghost use Rattle.items.specs.Told.{counted, Kept};

use crate::item::{WORD_BITS, item};
use crate::smallest::Smallest;
use circuit::parts::Item;
use numbers::pieces::Pieces;
use refusal::kinds::{Failure, Fault, Refusal};
use scan::names::Name;

/// How many items an expression has. Of all that is wrong in it the smallest number is answered, and then whether it has
/// more than 31 bits.
#[tactic(auto, using(crate::proofs::Tallies::tally_none, crate::proofs::Tallies::none_placed))]
pub fn judge(field: &[u8], place: usize) -> Result<usize, Fault>
    ensures judged { judged_by (λ n. n) result ≡ counted (expression field.now) }
    ensures placed { Placed place result }
{
    // A loop, since a fold would carry all three. The sums saturate: any number of bits over 31 is told alike.
    let mut wrong = Smallest::new();
    let mut bits: u32 = 0;
    let mut count: usize = 0;
    for piece in Pieces::new(field, b',') {
        match item(piece, place) {
            Ok(one) => {
                bits = bits.saturating_add(one.width().bits);
                count = count.saturating_add(1);
            }
            Err(fault) => wrong.meet(fault),
        }
    }
    wrong.answer()?;
    if bits > WORD_BITS {
        return Err(Refusal::TooWide.at(place));
    }
    Ok(count)
}

/// Adds the items of an expression, the highest first, behind those that are there. It stops at the first item that is
/// refused, which an expression that was judged good does not have.
#[tactic(auto, using(crate::proofs::Turns::kept_more, crate::proofs::Turns::turn_more, crate::proofs::Turns::turn_all, crate::proofs::Turns::turn_same))]
pub fn keep(field: &[u8], place: usize, items: &mut Vec<Item<Name>>) -> Result<(), Failure>
    ensures { Kept field.now place items.old.items items.new.items result }
{
    for text in Pieces::new(field, b',') {
        items.push(item(text, place)?)?;
    }
    Ok(())
}
