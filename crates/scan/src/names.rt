//! A name that owns its bytes.
ghost use Rattle.std.specs.Prelude.{◌≡◌, true};
ghost use Rattle.scan.specs.Names.{is_name};

use crate::bytes::NAME_BYTES;
use arrayvec::ArrayString;

pub mod reads;

/// A name.
#[derive(Clone, Copy, Debug, PartialEq, Eq, PartialOrd, Ord)]
pub struct Name {
    text: ArrayString<NAME_BYTES>,
    ghost named: { is_name text.bytes ≡ true },
}
