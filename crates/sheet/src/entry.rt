// Lists of named records: one text for facts and for steps, each with its own limit.
ghost use Rattle.std.specs.Prelude.{◌≡◌, ℕ, ◌+◌, ◌<◌, ◌≤◌, List, map, length, MatchResult, slice_set};
ghost use Rattle.sheet.specs.Entry.{First, Unknown, Stands};
ghost use Rattle.sheet.specs.declared.fault.SheetFault.{SheetFault};
ghost use Rattle.sheet.specs.declared.name.Name.{Name};
ghost use Rattle.sheet.specs.Name.{name_bytes};

use crate::fault::{Place, SheetFault};
use crate::name::Name;
use crate::record::{FactRecord, StepRecord};

pub trait Entry {
    ghost named: { Self → Name };

    ghost LIMIT: { ℕ };

    // How many records there may be.
    const LIMIT: usize;

    // Where the record keeps its name.
    fn name(&self) -> &Name
        ensures { result.now ≡ named self.now };
}

impl Entry for FactRecord {
    ghost named = { λ r. r.name };

    ghost LIMIT = { 64 };

    const LIMIT: usize = 64;

    fn name(&self) -> &Name {
        &self.name
    }
}

impl Entry for StepRecord {
    ghost named = { λ r. r.name };

    ghost LIMIT = { 256 };

    const LIMIT: usize = 256;

    fn name(&self) -> &Name {
        &self.name
    }
}

// The first record that has the name.
pub fn first_match<E: Entry>(entries: &[E], name: &[u8]) -> Option<usize>
    ensures { First (map (λ e. name_bytes (E.named e)) entries.now) name.now result }
{
    entries.iter().position(|e| e.name().is(name))
}

// Refuses a name that stands in the list already.
pub(crate) fn check_new<E: Entry>(
    entries: &[E],
    name: &[u8],
    field: Place,
) -> Result<(), SheetFault>
    ensures { MatchResult result (λ _. Unknown (map (λ e. name_bytes (E.named e)) entries.now) name.now)
        (λ f. (i : ℕ) × Stands (map (λ e. name_bytes (E.named e)) entries.now) name.now i × (f ≡ SheetFault.Repeated field)) }
{
    if first_match(entries, name).is_some() {
        return Err(SheetFault::Repeated(field));
    }
    Ok(())
}

// Puts one record more behind the first `count` and answers how many there are then, or refuses where the list is full.
pub(crate) fn append<E: Entry + Copy>(
    table: &mut [E],
    count: usize,
    e: E,
    field: Place,
) -> Result<usize, SheetFault>
    requires { length table.old ≡ E.LIMIT }
    ensures { MatchResult result (λ n. (count < E.LIMIT) × (n ≡ count + 1) × (table.new ≡ slice_set table.old count e))
        (λ f. (E.LIMIT ≤ count) × (table.new ≡ table.old) × (f ≡ SheetFault.Full field)) }
{
    if count >= E::LIMIT {
        return Err(SheetFault::Full(field));
    }
    table[count] = e;
    Ok(count + 1)
}
