//! Tests on bytes: letters and digits, names, and the order of names.
ghost use Rattle.std.specs.Prelude.{◌≡◌};
ghost use Rattle.scan.specs.Names.{is_letter, is_letter_or_digit, all, is_name, same, before};
ghost use Rattle.scan.specs.NamesOrdered.{NamesOrdered};

/// How many bytes a name has at most.
pub const NAME_BYTES: usize = 16;

/// Whether the byte is one of A to Z or a to z.
pub fn is_letter(byte: u8) -> bool
    ensures { result ≡ is_letter byte }
{
    byte.is_ascii_alphabetic()
}

/// Whether the byte is a letter or one of 0 to 9.
pub fn is_letter_or_digit(byte: u8) -> bool
    ensures { result ≡ is_letter_or_digit byte }
{
    byte.is_ascii_alphanumeric()
}

/// Whether each of the bytes is a letter or a digit.
fn are_letters_or_digits(text: &[u8]) -> bool
    ensures { result ≡ all is_letter_or_digit text.now }
{
    text.iter().all(|byte| is_letter_or_digit(*byte))
}

/// Whether the bytes make a name: a letter and then letters and digits, at most 16 bytes.
pub fn is_name(text: &[u8]) -> bool
    ensures { result ≡ is_name text.now }
{
    match text {
        [first, rest @ ..] => {
            text.len() <= NAME_BYTES && is_letter(*first) && are_letters_or_digits(rest)
        }
        [] => false,
    }
}

/// Whether the two are the same bytes.
pub fn is_same(one: &[u8], other: &[u8]) -> bool
    ensures { result ≡ same one.now other.now }
{
    one == other
}

/// Whether the one comes before the other: by the first byte in which they differ, and where there is none,
/// the one that begins the other comes first.
#[tactic(auto, using(crate::proofs::NameOrder::slice_before))]
pub fn is_before(one: &[u8], other: &[u8]) -> bool
    ensures { result ≡ before one.now other.now }
{
    match (one, other) {
        ([first, ..], [second, ..]) if first != second => first < second,
        _ => one.cmp(other).is_lt(),
    }
}

/// Carries the theorem on the order of names.
#[tactic(auto, using(crate::proofs::NameOrder::names_ordered))]
pub fn names_ordered()
    ensures { NamesOrdered }
{}
