//! Bytes, texts and numbers written into a lent buffer, as far as it goes. A page counts also what is past the buffer's
//! end, so that a page over an empty buffer tells a length.
#![tactic(auto)]

ghost use Rattle.std.specs.Prelude.{◌≡◌, ℕ, ◌+◌, ◌^◌, ◌<◌, ◌≤◌, [], ◌∷◌, length, decimal, IfOk, IfErr, OnErr};

use itoa::Buffer;
use std::fmt;

/// A lent buffer, written up to a place, which may be past its end.
#[derive(Drop)]
pub struct Page<'b> {
    pub out: &'b mut [u8],
    pub at: usize,
    ghost short: { length out.now < 2 ^ 64 },
}

impl<'b> Page<'b> {
    ghost use Rattle.lines.specs.Pages.{Adds};

    /// A page on which nothing is written.
    pub fn new(out: &'b mut [u8]) -> Page<'b>
        ensures same_reference { result.out.ghost_name ≡ out.entry.ghost_name }
        ensures bytes { result.out.now ≡ out.old }
        ensures at { result.at ≡ 0 }
    {
        Page { out, at: 0 }
    }

    /// Writes one byte.
    pub fn byte(&mut self, byte: u8)
        ensures { Adds (byte ∷ []) self.old self.new }
    {
        if self.at < self.out.len() {
            self.out[self.at] = byte;
        }
        self.at = self.at.saturating_add(1);
    }

    /// Writes some bytes.
    pub fn text(&mut self, bytes: &[u8])
        ensures { Adds bytes.now self.old self.new }
    {
        // what is past the end is counted alone
        let from = self.at.min(self.out.len());
        let fit = bytes.len().min(self.out.len() - from);
        self.out[from..from + fit].copy_from_slice(&bytes[..fit]);
        self.at = self.at.saturating_add(bytes.len());
    }

    /// Writes a number in decimal digits.
    pub fn number(&mut self, number: u32)
        ensures { Adds (decimal number) self.old self.new }
    {
        if self.at >= self.out.len() {
            self.at = self.at.saturating_add(number_length(number));
            return;
        }
        let mut digits = Buffer::new();
        self.text(digits.format(number).as_bytes());
    }
}

impl fmt::Write for Page<'_> {
    ghost use Rattle.lines.specs.Pages.{Adds};

    ghost write_str_gives = { λ page bytes after. Adds bytes page after };

    fn write_str(&mut self, text: &str) -> fmt::Result {
        self.text(text.as_bytes());
        Ok(())
    }
}

/// Writes into a buffer from its first byte on, and answers how many bytes that takes. A buffer that is too short for it
/// is left as it was, and the length needed is the error.
pub fn fitted<F: Fn(&mut Page<'_>)>(out: &mut [u8], write: F) -> Result<usize, usize>
    requires { F.IsAlwaysCallable write }
    ensures within { IfOk result (λ n. n ≤ length out.old) }
    ensures short { IfErr result (λ n. length out.old < n) }
    ensures kept { OnErr result (out.new ≡ out.old) }
{
    let mut counted = Page::new(&mut []);
    write(&mut counted);
    let needed = counted.at;
    if out.len() < needed {
        return Err(needed);
    }
    write(&mut Page::new(out));
    Ok(needed)
}

/// How many decimal digits a number has.
pub fn number_length(number: u32) -> usize
    ensures digits { result ≡ length (decimal number) }
    ensures bound { result ≤ number + 1 }
{
    if number < 10 {
        return 1;
    }
    number_length(number / 10) + 1
}
