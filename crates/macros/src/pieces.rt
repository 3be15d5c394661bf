//! The pieces of a text: bytes that stand for themselves, and uses of macros.
ghost use Rattle.std.specs.Prelude.{◌≡◌};
ghost use Rattle.verdict.specs.Macros.{pieces};
ghost use Rattle.macros.specs.Pieces.{remaining, meant};
ghost use Rattle.std.specs.Iterator.{YieldsFirstBy, item_count};

use crate::uses::used_name;

/// One piece of a text.
#[derive(Clone, Copy, Debug, PartialEq, Eq)]
pub(crate) enum TextPiece<'t> {
    /// A byte that stands for itself.
    Plain(u8),
    /// The name in a use of a macro.
    Use(&'t [u8]),
}

/// Hands out the pieces of a text, the first piece first.
#[derive(Clone, Copy, Debug, PartialEq, Eq)]
pub(crate) struct TextPieces<'t> {
    /// What is not handed out yet.
    rest: &'t [u8],
}

impl<'t> TextPieces<'t> {
    /// All pieces of the text.
    pub(crate) fn new(text: &'t [u8]) -> TextPieces<'t>
        ensures { remaining result ≡ pieces text.now }
    {
        TextPieces { rest: text }
    }
}

/// Each piece in turn.
impl<'t> Iterator for TextPieces<'t> {
    type Item = TextPiece<'t>;

    ghost next_gives = { YieldsFirstBy meant remaining };

    ghost remaining = { item_count remaining };

    fn next(&mut self) -> Option<TextPiece<'t>> {
        let (first, behind) = self.rest.split_first()?;
        match used_name(self.rest) {
            Some(name) => {
                self.rest = &behind[name.len()..];
                Some(TextPiece::Use(name))
            }
            None => {
                self.rest = behind;
                Some(TextPiece::Plain(*first))
            }
        }
    }
}
