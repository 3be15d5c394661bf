//! One item of an expression.
ghost use Rattle.std.specs.Prelude.{◌≡◌};
ghost use Rattle.scan.specs.NameBytes.{name_bytes};
ghost use Rattle.numbers.specs.Answers.{judged_by, Placed};
ghost use Rattle.numbers.specs.Judged.{both};
ghost use Rattle.numbers.specs.Numbers.{number};
ghost use Rattle.numbers.specs.Splits.{split};
ghost use Rattle.verdict.specs.Items.{low_bits, bits_of, binary_item, number_item, name_item, begins_number, item};
ghost use Rattle.items.specs.Meaning.{item_of, values_of};

use crate::smallest::both;
use circuit::parts::Item;
use numbers::pieces::Pieces;
use numbers::{binary, number};
use refusal::kinds::{Fault, Refusal};
use scan::names::Name;
use word::range::Range;
use word::value::Word;
use word::width::Width;

/// How many bits a number has that is given no width, and an expression at most.
pub const WORD_BITS: u32 = 31;

/// The highest bit of a word.
const HIGHEST_BIT: u32 = 30;

// The readers of an item pass the place along: `number`, `binary` and `both` answer faults at a place, and refusals without
// one would need a second `both`.

/// A constant of the low `bits` bits of a word.
fn constant(value: Word, bits: u32, place: usize) -> Result<Item<Name>, Fault>
    ensures judged { judged_by item_of result ≡ low_bits value.value bits }
    ensures placed { Placed place result }
{
    Width::new(bits)
        .map(|width| Item::Constant(width.low(value), width))
        .ok_or(Refusal::OutOfRange.at(place))
}

/// Bits `first` through `last` of what a part shows.
fn bits_of(name: Name, first: u32, last: u32, place: usize) -> Result<Item<Name>, Fault>
    ensures judged { judged_by item_of result ≡ bits_of (name_bytes name) first last }
    ensures placed { Placed place result }
{
    Range::new(first, last)
        .map(|range| Item::Bits(name, range))
        .ok_or(Refusal::OutOfRange.at(place))
}

/// `#` with 1 to 31 binary digits: a constant of that many bits.
fn binary_item(digits: &[u8], place: usize) -> Result<Item<Name>, Fault>
    ensures judged { judged_by item_of result ≡ binary_item digits.now }
    ensures placed { Placed place result }
{
    let value = binary(digits, place)?;
    let width = u32::try_from(digits.len())
        .ok()
        .and_then(Width::new)
        .ok_or(Refusal::OutOfRange.at(place))?;
    Ok(Item::Constant(value, width))
}

/// What two numbers say, or the smaller fault.
#[tactic(auto, using(crate::proofs::Pairs::both_values))]
fn two_numbers(one: &[u8], other: &[u8], place: usize) -> Result<(Word, Word), Fault>
    ensures judged { judged_by values_of result ≡ both (number one.now) (number other.now) }
    ensures placed { Placed place result }
{
    both(number(one, place), number(other, place))
}

/// `number`, a constant of 31 bits, or `number.w`, its low w bits.
fn number_item(text: &[u8], place: usize) -> Result<Item<Name>, Fault>
    ensures judged { judged_by item_of result ≡ number_item (split 46 text.now) }
    ensures placed { Placed place result }
{
    let mut pieces = Pieces::new(text, b'.');
    match (pieces.next(), pieces.next(), pieces.next()) {
        (Some(value), None, _) => constant(number(value, place)?, WORD_BITS, place),
        (Some(value), Some(width), None) => {
            let (value, width) = two_numbers(value, width, place)?;
            constant(value, width.value, place)
        }
        _ => Err(Refusal::Malformed.at(place)),
    }
}

/// `name`, `name.b` or `name.b.t`: all bits, one bit, or bits b through t of a part.
fn name_item(text: &[u8], place: usize) -> Result<Item<Name>, Fault>
    ensures judged { judged_by item_of result ≡ name_item (split 46 text.now) }
    ensures placed { Placed place result }
{
    let mut pieces = Pieces::new(text, b'.');
    let name = pieces
        .next()
        .and_then(Name::read)
        .ok_or(Refusal::Malformed.at(place))?;
    match (pieces.next(), pieces.next(), pieces.next()) {
        (None, _, _) => bits_of(name, 0, HIGHEST_BIT, place),
        (Some(bit), None, _) => {
            let bit = number(bit, place)?;
            bits_of(name, bit.value, bit.value, place)
        }
        (Some(first), Some(last), None) => {
            let (first, last) = two_numbers(first, last, place)?;
            bits_of(name, first.value, last.value, place)
        }
        _ => Err(Refusal::Malformed.at(place)),
    }
}

/// Whether a byte begins a number: a digit, `%`, `$` or `^`.
fn begins_number(byte: u8) -> bool
    ensures { result ≡ begins_number byte }
{
    matches!(byte, b'0'..=b'9' | b'%' | b'$' | b'^')
}

/// The item that a piece of an expression is. The first byte tells which kind.
#[tactic(auto, using(numbers::proofs::Marks::opened))]
pub fn item(text: &[u8], place: usize) -> Result<Item<Name>, Fault>
    ensures judged { judged_by item_of result ≡ item text.now }
    ensures placed { Placed place result }
{
    match text {
        [] => Err(Refusal::Malformed.at(place)),
        [b'#', digits @ ..] => binary_item(digits, place),
        [first, ..] if begins_number(*first) => number_item(text, place),
        _ => name_item(text, place),
    }
}
