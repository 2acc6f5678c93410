// One line of a sheet: a kind, one blank, one field.
ghost use Rattle.std.specs.Prelude.{◌≡◌, ℕ, Bool, List, MatchOption, ◌≢◌};
ghost use Rattle.sheet.specs.declared.kind.LineKind.{LineKind};
ghost use Rattle.sheet.specs.Print.{IsName};
ghost use Rattle.sheet.specs.Statement.{Statement, Prints, InField, headed, meant, signed, kind_stated};

use crate::field::number;
use crate::kind::LineKind;
use crate::name::plain::PlainName;

// What a line states. The names are parts of the sheet.
#[derive(Clone, Copy)]
pub enum Line<'a> {
    Version(u16),
    Length(u16),
    Fact(&'a [u8]),
    True(&'a [u8]),
    Wanted { negative: bool, name: &'a [u8] },
    Step(&'a [u8]),
    Need { negative: bool, name: &'a [u8] },
    Make { negative: bool, name: &'a [u8] },
}

// A name with an optional minus before it, which means false.
#[derive(Clone, Copy)]
pub struct SignedName<'a> {
    pub negative: bool,
    pub name: PlainName<'a>,
}

fn signed_name<'a>(field: &'a [u8]) -> Option<SignedName<'a>>
    ensures { MatchOption result ((s : List ℕ) → (b : Bool) → IsName s → field.now ≢ signed b s) (λ x. IsName x.name.bytes.now × (field.now ≡ signed x.negative x.name.bytes.now)) }
{
    let (negative, name) = match field {
        [b'-', rest @ ..] => (true, rest),
        _ => (false, field),
    };
    Some(SignedName {
        negative,
        name: PlainName::new(name)?,
    })
}

// The kind of a line, and its field.
fn split_line<'a>(bytes: &'a [u8]) -> Option<(LineKind, &'a [u8])>
    ensures { MatchOption result ((k : LineKind) (f : List ℕ) → bytes.now ≢ headed k f) (λ x. bytes.now ≡ headed x.0 x.1.now) }
{
    match bytes {
        [b'M', b'X', b'P', b' ', field @ ..] => Some((LineKind::Version, field)),
        [letter, b' ', field @ ..] => Some((LineKind::from_letter(*letter)?, field)),
        _ => None,
    }
}

// What a line of this kind states with this field.
fn parse_field<'a>(kind: LineKind, field: &'a [u8]) -> Option<Line<'a>>
    ensures { MatchOption result ((t : Statement) → InField t kind field.now → ⊥) (λ l. InField (meant l) kind field.now) }
{
    match kind {
        LineKind::Version => Some(Line::Version(number(field)?)),
        LineKind::Length => Some(Line::Length(number(field)?)),
        LineKind::Fact => Some(Line::Fact(PlainName::new(field)?.bytes)),
        LineKind::True => Some(Line::True(PlainName::new(field)?.bytes)),
        LineKind::Wanted => {
            let SignedName { negative, name } = signed_name(field)?;
            Some(Line::Wanted {
                negative,
                name: name.bytes,
            })
        }
        LineKind::Step => Some(Line::Step(PlainName::new(field)?.bytes)),
        LineKind::Need => {
            let SignedName { negative, name } = signed_name(field)?;
            Some(Line::Need {
                negative,
                name: name.bytes,
            })
        }
        LineKind::Make => {
            let SignedName { negative, name } = signed_name(field)?;
            Some(Line::Make {
                negative,
                name: name.bytes,
            })
        }
    }
}

// The line that the bytes state, without their line feed.
pub fn parse_line<'a>(bytes: &'a [u8]) -> Option<Line<'a>>
    ensures { MatchOption result ((t : Statement) → Prints t bytes.now → ⊥) (λ l. Prints (meant l) bytes.now) }
{
    let (kind, field) = split_line(bytes)?;
    parse_field(kind, field)
}

impl<'a> Line<'a> {
    pub fn kind(&self) -> LineKind
        ensures { result ≡ kind_stated (meant self.now) }
    {
        match self {
            Line::Version(_) => LineKind::Version,
            Line::Length(_) => LineKind::Length,
            Line::Fact(_) => LineKind::Fact,
            Line::True(_) => LineKind::True,
            Line::Wanted { .. } => LineKind::Wanted,
            Line::Step(_) => LineKind::Step,
            Line::Need { .. } => LineKind::Need,
            Line::Make { .. } => LineKind::Make,
        }
    }
}
