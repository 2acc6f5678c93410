// The fields of a command: numbers, the name of a ranking, the side of a pin, and what is opened.
ghost use Rattle.std.specs.Prelude.{◌≡◌, ℕ, ◌+◌, ◌*◌, ◌<◌, ◌≤◌, Bool, List, ◌∷◌, ◌++◌, length, MatchOption, ◌≢◌};
ghost use Rattle.board.specs.declared.field.RankingName.{RankingName};
ghost use Rattle.board.specs.declared.field.SourceName.{SourceName};
ghost use Rattle.board.specs.Fields.{Number, Numbers, NoBlank, Asks, Sided, Pins, SourceIs, Opens, ranking_word, side_word};

#[derive(Clone, Copy)]
pub enum RankingName {
    Forward,
    ByStep,
}

// What is opened: a sheet's file, or a water line.
#[derive(Clone, Copy)]
pub enum SourceName<'a> {
    Sheet(&'a [u8]),
    Water(u32),
}

// A number with one more digit at its end. A number beyond the largest is as good as the largest, since no call takes either.
fn further(n: u32, digit: u8) -> u32
    requires { digit < 10 }
    ensures small { n * 10 + digit ≤ 4294967295 → result ≡ n * 10 + digit }
    ensures large { 4294967295 < n * 10 + digit → result ≡ 4294967295 }
{
    n.saturating_mul(10).saturating_add(u32::from(digit))
}

// One or more digits.
pub(crate) fn number(s: &[u8]) -> Option<u32>
    ensures { MatchOption result ((n : ℕ) → Number s.now n → ⊥) (λ n. Number s.now n) }
{
    if s.is_empty() {
        return None;
    }
    let mut n = 0;
    for b in s {
        let b'0'..=b'9' = *b else {
            return None;
        };
        n = further(n, *b - b'0');
    }
    Some(n)
}

// What follows a word that stands at the front; said of lists once, for all who ask.
pub(crate) fn after<'a>(s: &'a [u8], word: &[u8]) -> Option<&'a [u8]>
    ensures { MatchOption result ((f : List ℕ) → s.now ≢ word.now ++ f) (λ x. s.now ≡ word.now ++ x.now) }
{
    s.strip_prefix(word)
}

// What stands before the first blank, and what after it.
pub(crate) fn cut<'a>(s: &'a [u8]) -> Option<(&'a [u8], &'a [u8])>
    ensures { MatchOption result (NoBlank s.now) (λ x. NoBlank x.0.now × (s.now ≡ x.0.now ++ 32 ∷ x.1.now)) }
{
    let at = s.iter().position(|b| *b == b' ')?;
    Some((&s[..at], &s[at + 1..]))
}

// Two numbers with a blank between.
pub(crate) fn numbers(s: &[u8]) -> Option<(u32, u32)>
    ensures { MatchOption result ((a b : ℕ) → Numbers s.now a b → ⊥) (λ x. Numbers s.now x.0 x.1) }
{
    let (first, second) = cut(s)?;
    Some((number(first)?, number(second)?))
}

pub(crate) fn ranking(s: &[u8]) -> Option<RankingName>
    ensures { MatchOption result ((x : RankingName) → s.now ≢ ranking_word x) (λ x. s.now ≡ ranking_word x) }
{
    match s {
        b"forward" => Some(RankingName::Forward),
        b"by-step" => Some(RankingName::ByStep),
        _ => None,
    }
}

// A length and a ranking.
pub(crate) fn asking(s: &[u8]) -> Option<(u32, RankingName)>
    ensures { MatchOption result ((n : ℕ) (x : RankingName) → Asks s.now n x → ⊥) (λ x. Asks s.now x.0 x.1) }
{
    let (length, name) = cut(s)?;
    Some((number(length)?, ranking(name)?))
}

// Whether a pin is to the taken side.
pub(crate) fn side(s: &[u8]) -> Option<bool>
    ensures { MatchOption result ((taken : Bool) → s.now ≢ side_word taken) (λ taken. s.now ≡ side_word taken) }
{
    match s {
        b"taken" => Some(true),
        b"out" => Some(false),
        _ => None,
    }
}

// A step and a side.
fn sided(s: &[u8]) -> Option<(u32, bool)>
    ensures { MatchOption result ((o : ℕ) (taken : Bool) → Sided s.now o taken → ⊥) (λ x. Sided s.now x.0 x.1) }
{
    let (step, last) = cut(s)?;
    Some((number(step)?, side(last)?))
}

// A time, a step and a side.
pub(crate) fn pinning(s: &[u8]) -> Option<(u32, u32, bool)>
    ensures { MatchOption result ((t o : ℕ) (taken : Bool) → Pins s.now t o taken → ⊥) (λ x. Pins s.now x.0 x.1 x.2) }
{
    let (first, rest) = cut(s)?;
    let time = number(first)?;
    let (step, taken) = sided(rest)?;
    Some((time, step, taken))
}

pub(crate) fn source<'a>(s: &'a [u8]) -> Option<SourceName<'a>>
    ensures { MatchOption result ((x : SourceName) → SourceIs x s.now → ⊥) (λ x. SourceIs x s.now) }
{
    if let Some(file) = after(s, b"sheet ") {
        return Some(SourceName::Sheet(file));
    }
    let meters = after(s, b"water ")?;
    let count = number(meters)?;
    Some(SourceName::Water(count))
}

// What is opened, and whether through the reach filter.
pub(crate) fn opening<'a>(s: &'a [u8]) -> Option<(bool, SourceName<'a>)>
    ensures { MatchOption result ((b : Bool) (x : SourceName) → Opens b x s.now → ⊥) (λ x. Opens x.0 x.1 s.now) }
{
    match after(s, b"reach ") {
        Some(rest) => Some((true, source(rest)?)),
        None => Some((false, source(s)?)),
    }
}
