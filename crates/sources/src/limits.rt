// What both rankings ask of a place and of a cell. Each is an order of its own beyond that, by another quotient and remainder.
ghost use Rattle.std.specs.Prelude.{◌≡◌, ◌*◌, ◌&&◌, nat_lt};
ghost use Rattle.model.specs.Rankings.{ranked};

use model::cell::Cell;

// Whether a length and a step count are within the limits, and have the place.
pub(crate) fn has_place(times: usize, steps: usize, place: usize) -> bool
    ensures { result ≡ (ranked times steps && nat_lt place (times * steps)) }
{
    times <= 32 && steps <= 256 && place < times * steps
}

// Whether they are, and have the cell.
pub(crate) fn has_cell(times: usize, steps: usize, cell: Cell) -> bool
    ensures { result ≡ (ranked times steps && (nat_lt cell.time times && nat_lt cell.step steps)) }
{
    times <= 32 && steps <= 256 && (cell.time as usize) < times && (cell.step as usize) < steps
}
