//! Macros and their uses in a text.
ghost use Rattle.std.specs.Prelude.{◌≡◌, ◌<◌, length, IfSome};
ghost use Rattle.std.specs.Option.{option_map};
ghost use Rattle.names.specs.Positions.{position_in};
ghost use Rattle.verdict.specs.Macros.{run, names_of, is_known, all_known, uses_macro};
ghost use Rattle.macros.specs.Pieces.{meant, is_use_of};
ghost use Rattle.macros.specs.Uses.{leading_name, use_at, entries};

use crate::pieces::{TextPiece, TextPieces};
use names::{Named, Placed, find};
use scan::bytes::{is_letter, is_letter_or_digit, is_same};

/// A macro by its name, its text and the place of its `~`.
#[derive(Clone, Copy, Debug, PartialEq, Eq)]
pub struct Macro<'t> {
    pub name: &'t [u8],
    pub text: &'t [u8],
    pub place: usize,
}

impl Named for Macro<'_> {
    ghost label = { λ m. m.name.now };

    fn name(&self) -> &[u8] {
        self.name
    }
}

impl Placed for Macro<'_> {
    ghost stands_at = { λ m. m.place };

    fn place(&self) -> usize {
        self.place
    }
}

/// The length of the longest run of letters and digits with which the text begins.
fn run_length(text: &[u8]) -> usize
    ensures { result ≡ length (run text.now) }
{
    let end = text.iter().position(|byte| !is_letter_or_digit(*byte));
    end.unwrap_or(text.len())
}

/// The run of letters and digits with which the text begins, if a letter is first.
fn leading_name(text: &[u8]) -> Option<&[u8]>
    ensures { option_map (λ x. x.now) result ≡ leading_name text.now }
{
    match text {
        [first, ..] if is_letter(*first) => Some(&text[0..run_length(text)]),
        _ => None,
    }
}

/// The name in the use with which the text begins, if it begins with one: `~`, a letter, and the letters and digits
/// after it.
pub fn used_name(text: &[u8]) -> Option<&[u8]>
    ensures { option_map (λ x. x.now) result ≡ use_at text.now }
{
    match text {
        [b'~', rest @ ..] => leading_name(rest),
        _ => None,
    }
}

/// Where the macro stands that a use names.
pub fn macro_of(table: &[Macro<'_>], used: &[u8]) -> Option<usize>
    ensures first { result ≡ position_in (names_of (entries table.now)) used.now }
    ensures within { IfSome result (λ i. i < length table.now) }
{
    find(table, used)
}

/// Whether the piece is no use of a macro that the table lacks.
#[tactic(auto, using(crate::proofs::Known::asked))]
fn is_known(piece: TextPiece<'_>, table: &[Macro<'_>]) -> bool
    ensures { result ≡ is_known (names_of (entries table.now)) (meant piece.entry) }
{
    match piece {
        TextPiece::Plain(_) => true,
        TextPiece::Use(used) => macro_of(table, used).is_some(),
    }
}

/// Whether the piece is a use of this name.
fn is_use_of(piece: TextPiece<'_>, name: &[u8]) -> bool
    ensures { result ≡ is_use_of name.now (meant piece.entry) }
{
    match piece {
        TextPiece::Plain(_) => false,
        TextPiece::Use(used) => is_same(used, name),
    }
}

/// Whether each use in the text names a macro of the table.
pub fn all_known(table: &[Macro<'_>], text: &[u8]) -> bool
    ensures { result ≡ all_known (names_of (entries table.now)) text.now }
{
    TextPieces::new(text).all(|piece| is_known(piece, table))
}

/// Whether the text uses the macro of this name.
pub(crate) fn uses_macro(text: &[u8], name: &[u8]) -> bool
    ensures { result ≡ uses_macro name.now text.now }
{
    TextPieces::new(text).any(|piece| is_use_of(piece, name))
}
