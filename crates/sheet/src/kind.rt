// The kinds of lines, and which may follow which.
ghost use Rattle.std.specs.Prelude.{◌≡◌, true, false, Some, None, MatchResult};
ghost use Rattle.sheet.specs.Kind.{kind_of, allowed, may_end};
ghost use Rattle.sheet.specs.declared.fault.SheetFault.{SheetFault};

use crate::fault::{Place, SheetFault};

// In the order in which they may stand.
#[derive(Clone, Copy, PartialEq, Eq, PartialOrd, Ord, Debug)]
pub enum LineKind {
    Version,
    Length,
    Fact,
    True,
    Wanted,
    Step,
    Need,
    Make,
}

impl LineKind {
    // The kind that a first letter tells. An Option and no `TryFrom`: there is nothing to say of a letter that tells none.
    pub fn from_letter(letter: u8) -> Option<LineKind>
        ensures { result ≡ kind_of letter }
    {
        match letter as char {
            'l' => Some(LineKind::Length),
            'f' => Some(LineKind::Fact),
            't' => Some(LineKind::True),
            'w' => Some(LineKind::Wanted),
            's' => Some(LineKind::Step),
            'n' => Some(LineKind::Need),
            'm' => Some(LineKind::Make),
            _ => None,
        }
    }
}

// Whether a line of kind `present` may stand after one of kind `previous`, `None` at the start of the sheet.
pub fn check_order(
    previous: Option<LineKind>,
    present: LineKind,
    line: u32,
) -> Result<(), SheetFault>
    ensures { MatchResult result (λ _. allowed previous present ≡ true) (λ e. (allowed previous present ≡ false) × (e ≡ SheetFault.Order (record { line = line; byte = 1 }))) }
{
    match (previous, present) {
        (None, LineKind::Version) => Ok(()),
        (Some(LineKind::Version), LineKind::Length) => Ok(()),
        (Some(LineKind::Length), LineKind::Fact) => Ok(()),
        // facts, then what is true, then what is wanted, then steps
        (Some(p), k) if LineKind::Fact <= p && p <= k && k <= LineKind::Step => Ok(()),
        // in a step: needs, then makes, then the next step
        (Some(p), k) if LineKind::Step <= p && (k == LineKind::Step || p <= k) => Ok(()),
        _ => Err(SheetFault::Order(Place { line, byte: 1 })),
    }
}

// Whether the sheet may end after a line of kind `previous`: only after an `f` line or a later one.
pub fn check_end(previous: Option<LineKind>, line: u32) -> Result<(), SheetFault>
    ensures { MatchResult result (λ _. may_end previous ≡ true) (λ e. (may_end previous ≡ false) × (e ≡ SheetFault.NoFact (record { line = line; byte = 1 }))) }
{
    match previous {
        None | Some(LineKind::Version) | Some(LineKind::Length) => Err(SheetFault::NoFact(Place {
            line,
            byte: 1,
        })),
        Some(_) => Ok(()),
    }
}
