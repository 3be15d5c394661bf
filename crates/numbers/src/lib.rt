//! Numbers in a drawing's text: sums of terms, each a row of digits with a mark that tells its
//! base. A fault stands at the place of the word that the number is part of.
#![tactic(auto)]

ghost use Rattle.std.specs.Prelude.{◌≡◌, ◌+◌, ◌^◌, ◌⊎◌, min, IfErr};
ghost use Rattle.refusal.specs.declared.kinds.Refusal.TheVariants.{Malformed, NumberTooLarge, OutOfRange};
ghost use Rattle.numbers.specs.Numbers.{word_of, power, term_value, term, number, binary_value};
ghost use Rattle.numbers.specs.Answers.{judged_of, unplaced, Placed, Either};
ghost use Rattle.numbers.specs.Capped.{cut, capped, told};
ghost use Rattle.numbers.specs.Theorems.{NumberCases, NumbersReadBack};

pub mod pieces;
mod rows;

use pieces::Pieces;
use refusal::kinds::{Fault, Refusal};
use rows::{Base, row};
use word::value::Word;

/// How many bits a word has.
const BITS: usize = 31;

/// The number as a word, if it is one.
fn limited(value: Option<u32>) -> Result<Word, Refusal>
    ensures judged { unplaced (λ w. w.value) result ≡ word_of (told value) }
    ensures kind { IfErr result (λ r. r ≡ NumberTooLarge) }
{
    value.and_then(Word::new).ok_or(Refusal::NumberTooLarge)
}

/// 2 to the power, or nothing where that is more than 32 bits hold.
fn two_to(exponent: u32) -> Option<u32>
    ensures { told result ≡ 2 ^ min exponent 31 }
{
    1_u32.checked_shl(exponent)
}

/// 2 to the power that the decimal digits say, or nothing where that is more than 32 bits hold.
fn power(text: &[u8]) -> Result<Option<u32>, Refusal>
    ensures judged { unplaced told result ≡ capped (power text.now) }
    ensures kind { IfErr result (λ r. r ≡ Malformed) }
{
    let exponent = row(text, Base::Ten)?;
    Ok(exponent.and_then(two_to))
}

/// What a term says, or nothing where that is more than 32 bits hold: `%` is before binary digits,
/// `$` before digits of base 16 and `^` before the power of two; other digits are decimal.
#[tactic(auto, using(crate::proofs::Marks::opened))]
fn marked(text: &[u8]) -> Result<Option<u32>, Refusal>
    ensures judged { unplaced told result ≡ capped (term_value text.now) }
    ensures kind { IfErr result (λ r. r ≡ Malformed) }
{
    match text {
        [b'%', digits @ ..] => row(digits, Base::Two),
        [b'$', digits @ ..] => row(digits, Base::Sixteen),
        [b'^', digits @ ..] => power(digits),
        digits => row(digits, Base::Ten),
    }
}

/// What a term says. It is refused if it is malformed, and otherwise if it is over 2,147,483,647.
pub fn term(text: &[u8], place: usize) -> Result<Word, Fault>
    ensures judged { judged_of result ≡ term text.now }
    ensures placed { Placed place result }
    ensures kind { Either Malformed NumberTooLarge result }
{
    marked(text)
        .and_then(limited)
        .map_err(|refusal| refusal.at(place))
}

/// The sum, or nothing once that is more than 32 bits hold.
fn added(total: Option<u32>, more: Option<u32>) -> Option<u32>
    ensures { told result ≡ cut (told total + told more) }
{
    total?.checked_add(more?)
}

/// The word that the sum of the terms is.
#[tactic(auto, using(crate::proofs::Sums::tally_number, crate::proofs::Sums::tally_more))]
fn word_of_sum(text: &[u8]) -> Result<Word, Refusal>
    ensures judged { unplaced (λ w. w.value) result ≡ number text.now }
    ensures kind { IfErr result (λ r. (r ≡ Malformed) ⊎ (r ≡ NumberTooLarge)) }
{
    let mut total = Some(0);
    for piece in Pieces::new(text, b'+') {
        let more = marked(piece)?;
        total = added(total, more);
    }
    limited(total)
}

/// What a number says: the sum of its terms, which are joined by `+`. A malformed term is refused,
/// wherever it stands, and otherwise a term or a sum that is over 2,147,483,647.
pub fn number(text: &[u8], place: usize) -> Result<Word, Fault>
    ensures judged { judged_of result ≡ number text.now }
    ensures placed { Placed place result }
    ensures kind { Either Malformed NumberTooLarge result }
{
    word_of_sum(text).map_err(|refusal| refusal.at(place))
}

/// The word that binary digits say.
fn word_of_bits(text: &[u8]) -> Result<Word, Refusal>
    ensures judged { unplaced (λ w. w.value) result ≡ binary_value text.now }
    ensures kind { IfErr result (λ r. (r ≡ Malformed) ⊎ (r ≡ OutOfRange)) }
{
    let value = row(text, Base::Two)?;
    if text.len() <= BITS {
        value.and_then(Word::new).ok_or(Refusal::OutOfRange)
    } else {
        Err(Refusal::OutOfRange)
    }
}

/// What 1 to 31 binary digits say. More of them are out of range, and any other text is malformed,
/// however long.
pub fn binary(text: &[u8], place: usize) -> Result<Word, Fault>
    ensures judged { judged_of result ≡ binary_value text.now }
    ensures placed { Placed place result }
    ensures kind { Either Malformed OutOfRange result }
{
    word_of_bits(text).map_err(|refusal| refusal.at(place))
}

/// Some numbers with what they say.
pub fn number_cases_stand()
    ensures { NumberCases }
{}

/// A word's decimal digits, with any number of zeros in front, are read as that word.
#[tactic(auto, using(crate::proofs::Decimals::numbers_read_back))]
pub fn numbers_read_back()
    ensures { NumbersReadBack }
{}
