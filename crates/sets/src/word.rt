// The least bit of one word from a place on.
ghost use Rattle.std.specs.Prelude.{◌≡◌, ℕ, ◌<◌, ◌≤◌, true, false, MatchOption};
ghost use Rattle.sets.specs.Has.{has};

// `from` is a place within the word.
pub(crate) fn least_from(word: u64, from: usize) -> Option<usize>
    requires { from < 64 }
    ensures { MatchOption result ((i : ℕ) → from ≤ i → has word i ≡ false)
        (λ o. (from ≤ o) × (o < 64) × (has word o ≡ true) × ((i : ℕ) → from ≤ i → i < o → has word i ≡ false)) }
{
    let rest = word >> from;
    if rest == 0 {
        None
    } else {
        Some(from + rest.trailing_zeros() as usize)
    }
}
