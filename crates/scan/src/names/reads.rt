//! Names made from bytes, and compared.
ghost use Rattle.std.specs.Prelude.{◌≡◌, ℕ, ◌<◌, ◌≤◌, true, false, length, MatchOption, slice_index};
ghost use Rattle.scan.specs.Names.{is_name, same, before};
ghost use Rattle.scan.specs.NameBytes.{name_bytes};

use super::Name;
use crate::bytes::is_name;
use arrayvec::ArrayString;
use std::str;

impl Name {
    /// The name of these bytes, if they make one.
    #[tactic(auto, using(crate::proofs::NameShape::name_utf8))]
    pub fn read(text: &[u8]) -> Option<Name>
        ensures { MatchOption result (is_name text.now ≡ false) (λ n. (is_name text.now ≡ true) × (name_bytes n ≡ text.now)) }
    {
        if !is_name(text) {
            return None;
        }
        // The bytes of a name are text, since each is below 128: that is proved here, and not tested a second time.
        let text = unsafe { str::from_utf8_unchecked(text) };
        let text = ArrayString::from(text).ok()?;
        Some(Name { text })
    }

    /// The bytes of the name: 1 to 16 of them, each below 128.
    #[tactic(auto, using(crate::proofs::NameShape::name_low))]
    pub fn as_bytes(&self) -> &[u8]
        ensures value { result.now ≡ name_bytes self.now }
        ensures named { is_name result.now ≡ true }
        ensures some { 1 ≤ length result.now }
        ensures short { length result.now ≤ 16 }
        ensures low { (k : ℕ) → slice_index result.now k < 128 }
    {
        self.text.as_str().as_bytes()
    }

    /// Whether the two have the same bytes: `==`, told of the bytes.
    pub fn is_same(&self, other: &Name) -> bool
        ensures { result ≡ same (name_bytes self.now) (name_bytes other.now) }
    {
        self == other
    }

    /// Whether this one comes before the other: `<`, told of the bytes.
    #[tactic(auto, using(crate::proofs::NameOrder::text_before))]
    pub fn is_before(&self, other: &Name) -> bool
        ensures { result ≡ before (name_bytes self.now) (name_bytes other.now) }
    {
        self < other
    }
}
