// A name as it stands in a sheet: at most 15 bytes of it.
ghost use Rattle.std.specs.Prelude.{◌≡◌, ◌≤◌, length, MatchOption};
ghost use Rattle.sheet.specs.Print.{IsName};

use crate::field::is_name;

#[derive(Clone, Copy)]
pub struct PlainName<'a> {
    pub bytes: &'a [u8],
    ghost short: { length bytes.now ≤ 15 },
}

impl<'a> PlainName<'a> {
    // The name that the bytes are, if they are one.
    pub fn new(bytes: &'a [u8]) -> Option<PlainName<'a>>
        ensures { MatchOption result (IsName bytes.now → ⊥) (λ x. IsName x.bytes.now × (x.bytes.now ≡ bytes.now)) }
    {
        if !is_name(bytes) {
            return None;
        }
        Some(PlainName { bytes })
    }
}
