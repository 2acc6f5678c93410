// A ranking's order, copied into a table.
ghost use Rattle.std.specs.Prelude.{◌≡◌, ◌*◌, false, ◌&&◌, ◌<◌, ◌↔◌, length, nat_le, Err, OnOk, OnErr, is_ok};
ghost use Rattle.model.specs.declared.order.OrderFault.TheVariants as fault;
ghost use Rattle.model.specs.Rankings.{Copied, EachOnce, ranked};

use crate::cell::Cell;
use crate::ranking::Ranking;

// Why no order was copied.
#[derive(Clone, Copy, PartialEq, Eq, Debug)]
pub enum OrderFault {
    // more than 32 times or 256 steps
    Unranked,
    // the table is shorter than the order
    TableTooShort,
}

// The cells in the ranking's order, to the front of the table, which is as it was where they are refused.
pub fn copy_order<R: Ranking>(
    ranking: &R,
    times: usize,
    steps: usize,
    table: &mut [Cell],
) -> Result<(), OrderFault>
    ensures fits { is_ok result ≡ (ranked times steps && nat_le (times * steps) (length table.old)) }
    ensures copied { OnOk result (Copied (R.order ranking.now) times steps table.old table.new) }
    ensures once { OnOk result (EachOnce times steps table.new) }
    ensures refused { OnErr result (table.new ≡ table.old) }
    ensures unranked { result ≡ Err fault.Unranked ↔ (ranked times steps ≡ false) }
{
    if times > 32 || steps > 256 {
        return Err(OrderFault::Unranked);
    }
    let places = times * steps;
    if places > table.len() {
        return Err(OrderFault::TableTooShort);
    }
    for (place, cell) in table[..places].iter_mut().enumerate() {
        *cell = ranking.cell(times, steps, place);
    }
    Ok(())
}
