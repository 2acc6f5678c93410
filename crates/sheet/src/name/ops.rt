// What a stored name answers.
ghost use Rattle.std.specs.Prelude.{◌≡◌, [], Decides};
ghost use Rattle.sheet.specs.Name.{name_bytes};

use super::Name;
use crate::name::plain::PlainName;

impl Name {
    // No name.
    pub fn blank() -> Name
        ensures { name_bytes result ≡ [] }
    {
        Name {
            bytes: [0; 15],
            len: 0,
        }
    }

    pub fn is(&self, s: &[u8]) -> bool
        ensures { Decides result (name_bytes self.now ≡ s.now) }
    {
        let n = self.len as usize;
        let part: &[u8] = &self.bytes[..n];
        part == s
    }
}

impl From<PlainName<'_>> for Name {
    ghost from_gives = { λ p n. name_bytes n ≡ p.bytes.now };

    fn from(plain: PlainName<'_>) -> Name {
        let mut bytes = [0u8; 15];
        let n = plain.bytes.len();
        bytes[..n].copy_from_slice(plain.bytes);
        Name {
            bytes,
            len: n as u8,
        }
    }
}
