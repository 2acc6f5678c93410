// The line that is printed for a faulty sheet.
ghost use Rattle.std.specs.Prelude.{◌≡◌, ◌≤◌};
ghost use Rattle.text.specs.Written.{Reported};
ghost use Rattle.sheet.specs.Fault.{number_of, place_of, fault_line};

use crate::fault::{ByteFault, LineFault, Place, SheetFault};
use text::write::{Text, Writer};

// Why no line was written.
#[derive(Clone, Copy, PartialEq, Eq, Debug)]
pub enum WriteFault {
    TooFewBytes,
}

impl SheetFault {
    // The number of a fault: that of the innermost one.
    pub fn number(&self) -> usize
        ensures value { result ≡ number_of self.now }
        ensures small { result ≤ 11 }
    {
        match self {
            SheetFault::Line(LineFault::Byte(ByteFault::TooLong)) => 1,
            SheetFault::Line(LineFault::Byte(ByteFault::OtherByte(_))) => 2,
            SheetFault::Line(LineFault::Byte(ByteFault::NoLineFeed(_))) => 3,
            SheetFault::Line(LineFault::Form(_)) => 4,
            SheetFault::Version(_) => 5,
            SheetFault::Order(_) => 6,
            SheetFault::UnknownFact(_) => 7,
            SheetFault::Repeated(_) => 8,
            SheetFault::Full(_) => 9,
            SheetFault::NoFact(_) => 10,
            SheetFault::Length(_) => 11,
        }
    }

    // The place of a fault; a sheet that is too long has none, and tells zeros.
    pub fn place(&self) -> Place
        ensures { result ≡ place_of self.now }
    {
        match self {
            SheetFault::Line(LineFault::Byte(ByteFault::TooLong)) => Place { line: 0, byte: 0 },
            SheetFault::Line(
                LineFault::Byte(ByteFault::OtherByte(place) | ByteFault::NoLineFeed(place)),
            )
            | SheetFault::Line(LineFault::Form(place))
            | SheetFault::Version(place)
            | SheetFault::Order(place)
            | SheetFault::UnknownFact(place)
            | SheetFault::Repeated(place)
            | SheetFault::Full(place)
            | SheetFault::NoFact(place)
            | SheetFault::Length(place) => *place,
        }
    }
}

impl Text for SheetFault {
    ghost text = { fault_line };

    fn write(&self, writer: &mut Writer) {
        let place = self.place();
        writer.bytes(b"sheet fault ");
        writer.number(self.number());
        writer.bytes(b" line ");
        writer.number(place.line as usize);
        writer.bytes(b" byte ");
        writer.number(place.byte as usize);
        writer.byte(b'\n');
    }
}

// The fault line into the caller's bytes, or nothing where they are too few.
pub fn write_fault(fault: &SheetFault, out: &mut [u8]) -> Result<usize, WriteFault>
    ensures { Reported (fault_line fault.now) out.old result out.new }
{
    fault.fit(out).ok_or(WriteFault::TooFewBytes)
}
