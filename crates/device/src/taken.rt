//! The words that a port has taken, in storage.
ghost use Rattle.std.specs.Prelude.{◌≡◌, ◌≤◌, length};

pub mod keeps;

use word::value::Word;

/// The words that a port has taken, of which there are at most `N`. It is an array of its own, since the kit's
/// `ArrayVec` is not `Copy`.
#[derive(Clone, Copy, Debug)]
pub struct Taken<const N: usize> {
    words: [Word; N],
    count: usize,
    ghost long: { length words ≡ N },
    ghost within: { count ≤ N },
}
