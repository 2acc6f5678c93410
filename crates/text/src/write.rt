// The one writer: it counts every byte, and writes those for which there is room. The library's `write!` promises what was written
// only where it succeeds, and here too few bytes have to stand as before.
ghost use Rattle.std.specs.Prelude.{◌≡◌, ℕ, List, [], ◌∷◌, decimal, Option};
ghost use Rattle.text.specs.Written.{Fitted};
ghost use Rattle.text.specs.Writers.{Writes};

// A place in the bytes to write at. It may lie beyond them, and a word's greatest number stands for any beyond it.
#[derive(Drop)]
pub struct Writer<'a> {
    pub out: &'a mut [u8],
    pub at: usize,
}

impl Writer<'_> {
    pub fn byte(&mut self, b: u8)
        ensures { Writes (b ∷ []) self.old self.new }
    {
        if self.at < self.out.len() {
            self.out[self.at] = b;
        }
        self.at = self.at.saturating_add(1);
    }

    // Copied whole where it has room, and only counted where no byte of it has.
    pub fn bytes(&mut self, text: &[u8])
        ensures { Writes text.now self.old self.new }
    {
        let end = self.at.saturating_add(text.len());
        if end <= self.out.len() {
            self.out[self.at..end].copy_from_slice(text);
        } else if self.at < self.out.len() {
            return self.byte_by_byte(text);
        }
        self.at = end;
    }

    fn byte_by_byte(&mut self, text: &[u8])
        ensures { Writes text.now self.old self.new }
    {
        for b in text {
            self.byte(*b);
        }
    }

    // In decimal, with no leading zero.
    pub fn number(&mut self, n: usize)
        ensures { Writes (decimal n) self.old self.new }
    {
        if n >= 10 {
            self.number(n / 10);
        }
        self.byte(b'0' + (n % 10) as u8);
    }
}

// What can be written as text, all of it or nothing.
pub trait Text {
    // the bytes
    ghost text: { Self → List ℕ };

    fn write(&self, writer: &mut Writer)
        ensures { Writes (text self.now) writer.old writer.new };

    // Into the caller's bytes, or nothing where they are too few.
    final fn fit(&self, out: &mut [u8]) -> Option<usize>
        ensures { Fitted (text self.now) out.old result out.new }
    {
        let mut measure = Writer {
            out: &mut [],
            at: 0,
        };
        self.write(&mut measure);
        if measure.at > out.len() {
            return None;
        }
        let mut writer = Writer { out, at: 0 };
        self.write(&mut writer);
        Some(writer.at)
    }
}

impl Text for &[u8] {
    ghost text = { λ b. b.now };

    fn write(&self, writer: &mut Writer) {
        writer.bytes(self);
    }
}

// A text into the caller's bytes, or nothing where they are too few. Its length is known, so it is compared and not measured, and
// it is copied whole.
pub fn write_text(text: &[u8], out: &mut [u8]) -> Option<usize>
    ensures { Fitted text.now out.old result out.new }
{
    if text.len() > out.len() {
        return None;
    }
    out[..text.len()].copy_from_slice(text);
    Some(text.len())
}
