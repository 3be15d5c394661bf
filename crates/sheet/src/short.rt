//! A text whose words can be counted.
ghost use Rattle.std.specs.Prelude.{◌≡◌, ◌^◌, ◌<◌, ◌≤◌, [], length, MatchOption};

/// A text of less than 4 GiB.
#[derive(Clone, Copy, Debug)]
pub(crate) struct ShortText<'t> {
    pub(crate) bytes: &'t [u8],
    ghost short: { length bytes.now < 2 ^ 32 },
}

impl<'t> ShortText<'t> {
    /// The text, unless it has 4 GiB or more.
    pub(crate) fn new(text: &'t [u8]) -> Option<ShortText<'t>>
        ensures { MatchOption result (2 ^ 32 ≤ length text.now) (λ s. s.bytes.now ≡ text.now) }
    {
        if text.len() > u32::MAX as usize {
            None
        } else {
            Some(ShortText { bytes: text })
        }
    }

    /// The text without a byte.
    pub(crate) fn empty() -> ShortText<'t>
        ensures { result.bytes.now ≡ [] }
    {
        ShortText { bytes: &[] }
    }
}
