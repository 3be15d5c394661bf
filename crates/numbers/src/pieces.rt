//! The pieces of a text between separators.
ghost use Rattle.std.specs.Prelude.{◌≡◌, ◌==◌, position};
ghost use Rattle.std.specs.Iterator.{YieldsFirstRef, item_count};
ghost use Rattle.numbers.specs.Splits.{split, remaining};

/// Hands out the pieces of a text that stand between separators, the first piece first. A text
/// with no separator is one piece, and two separators side by side have an empty piece between.
#[derive(Clone, Copy, Debug, PartialEq, Eq)]
pub struct Pieces<'a> {
    /// What is not handed out yet, or nothing once the last piece is.
    rest: Option<&'a [u8]>,
    separator: u8,
}

impl<'a> Pieces<'a> {
    /// All pieces of the text.
    pub fn new(text: &'a [u8], separator: u8) -> Pieces<'a>
        ensures { remaining result ≡ split separator text.now }
    {
        Pieces {
            rest: Some(text),
            separator,
        }
    }
}

/// Each piece in turn; as many as there are separators, and one more.
impl<'a> Iterator for Pieces<'a> {
    type Item = &'a [u8];

    ghost next_gives = { YieldsFirstRef remaining };

    ghost remaining = { item_count remaining };

    fn next(&mut self) -> Option<&'a [u8]> {
        let rest = self.rest?;
        match find(rest, self.separator) {
            Some(end) => {
                self.rest = Some(&rest[end + 1..]);
                Some(&rest[..end])
            }
            None => {
                self.rest = None;
                Some(rest)
            }
        }
    }
}

/// Where the separator first stands in the text.
fn find(text: &[u8], separator: u8) -> Option<usize>
    ensures { result ≡ position (λ byte. byte == separator) text.now }
{
    text.iter().position(|byte| *byte == separator)
}
