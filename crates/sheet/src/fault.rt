// What may be wrong with a sheet, and where. The outer fault holds the inner one whole.
ghost use Rattle.std.specs.Prelude.{◌≡◌};
ghost use Rattle.sheet.specs.declared.fault.LineFault.TheVariants.{Byte};
ghost use Rattle.sheet.specs.declared.fault.SheetFault.TheVariants.{Line};

// Lines and bytes count from 1.
#[derive(Clone, Copy, PartialEq, Eq, Debug)]
pub struct Place {
    pub line: u32,
    pub byte: u32,
}

// 1 to 3.
#[derive(Clone, Copy, PartialEq, Eq, Debug)]
pub enum ByteFault {
    TooLong,
    OtherByte(Place),
    NoLineFeed(Place),
}

// 4.
#[derive(Clone, Copy, PartialEq, Eq, Debug)]
pub enum LineFault {
    Byte(ByteFault),
    Form(Place),
}

// 5 to 11.
#[derive(Clone, Copy, PartialEq, Eq, Debug)]
pub enum SheetFault {
    Line(LineFault),
    Version(Place),
    Order(Place),
    UnknownFact(Place),
    Repeated(Place),
    Full(Place),
    NoFact(Place),
    Length(Place),
}

impl From<ByteFault> for LineFault {
    ghost from_gives = { λ b l. l ≡ Byte b };

    fn from(b: ByteFault) -> LineFault {
        LineFault::Byte(b)
    }
}

impl From<LineFault> for SheetFault {
    ghost from_gives = { λ b l. l ≡ Line b };

    fn from(b: LineFault) -> SheetFault {
        SheetFault::Line(b)
    }
}
