//! Rows of digits.
ghost use Rattle.std.specs.Prelude.{◌≡◌, ◌+◌, ◌*◌, IfErr};
ghost use Rattle.refusal.specs.declared.kinds.Refusal.TheVariants.{Malformed};
ghost use Rattle.numbers.specs.Numbers.{digits_after, digits};
ghost use Rattle.numbers.specs.Answers.{unplaced};
ghost use Rattle.numbers.specs.Capped.{cut, capped, told, size, digit_in};

use refusal::kinds::Refusal;

/// The bases that a row of digits can be written in.
#[derive(Clone, Copy, Debug, PartialEq, Eq)]
pub(crate) enum Base {
    Two,
    Ten,
    Sixteen,
}

impl Base {
    /// How many digits the base has.
    fn size(self) -> u32
        ensures { result ≡ size self }
    {
        match self {
            Base::Two => 2,
            Base::Ten => 10,
            Base::Sixteen => 16,
        }
    }

    /// The value of a digit of the base.
    fn digit(self, byte: u8) -> Option<u32>
        ensures { result ≡ digit_in (size self) byte }
    {
        digit(byte).filter(|digit| *digit < self.size())
    }

    /// A number with a digit behind it, or nothing once that is more than 32 bits hold.
    fn append(self, value: Option<u32>, digit: u32) -> Option<u32>
        ensures { told result ≡ cut (told value * size self + digit) }
    {
        value?.checked_mul(self.size())?.checked_add(digit)
    }
}

/// The value of a digit, A to F for 10 to 15. The library's `to_digit` takes small letters too.
fn digit(byte: u8) -> Option<u32>
    ensures { result ≡ digit_in 16 byte }
{
    match byte {
        b'0'..=b'9' => Some(u32::from(byte - b'0')),
        b'A'..=b'F' => Some(u32::from(byte - b'A' + 10)),
        _ => None,
    }
}

/// What a row of digits says behind digits that say more than 32 bits hold: nothing, if all its
/// bytes are digits of the base.
#[tactic(auto, using(crate::proofs::Caps::more_over, crate::proofs::Caps::no_digit, crate::proofs::Caps::all_read))]
fn row_over(text: &[u8], base: Base) -> Result<Option<u32>, Refusal>
    ensures judged { unplaced told result ≡ capped (digits_after (size base) 2147483648 text.now) }
    ensures kind { IfErr result (λ r. r ≡ Malformed) }
{
    for byte in text {
        base.digit(*byte).ok_or(Refusal::Malformed)?;
    }
    Ok(None)
}

/// What a row of digits says in the base, or nothing once that is more than 32 bits hold. No digit
/// at all, or a byte that is no digit of the base, is malformed.
// This and what stands on it fail in one way alone; a type for that would turn into a refusal at once.
#[tactic(auto, using(crate::proofs::Caps::none_read, crate::proofs::Caps::more, crate::proofs::Caps::passed, crate::proofs::Caps::no_digit, crate::proofs::Caps::all_read))]
pub(crate) fn row(text: &[u8], base: Base) -> Result<Option<u32>, Refusal>
    ensures judged { unplaced told result ≡ capped (digits (size base) text.now) }
    ensures kind { IfErr result (λ r. r ≡ Malformed) }
{
    if text.is_empty() {
        return Err(Refusal::Malformed);
    }
    let mut value = 0;
    for (at, byte) in text.iter().enumerate() {
        let digit = base.digit(*byte).ok_or(Refusal::Malformed)?;
        match base.append(Some(value), digit) {
            Some(more) => value = more,
            None => return row_over(&text[at + 1..], base),
        }
    }
    Ok(Some(value))
}
