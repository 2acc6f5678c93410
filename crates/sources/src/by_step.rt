// The ranking that goes step by step: the cell of time t and step o has place o × times + t.
ghost use Rattle.sources.specs.Built.{by_step};
ghost use Rattle.sources.specs.Bijections.{by_step_undo};

use crate::limits::{has_cell, has_place};
use model::cell::Cell;
use model::ranking::Ranking;

#[derive(Clone, Copy)]
pub struct ByStep;

impl Ranking for ByStep {
    ghost order = { λ _. by_step };

    ghost undo = { λ _. by_step_undo };

    fn cell(&self, times: usize, steps: usize, place: usize) -> Cell {
        if !has_place(times, steps, place) {
            return Cell { time: 0, step: 0 };
        }
        Cell {
            time: (place % times) as u8,
            step: (place / times) as u8,
        }
    }

    fn place(&self, times: usize, steps: usize, cell: Cell) -> usize {
        if !has_cell(times, steps, cell) {
            return 0;
        }
        cell.step as usize * times + cell.time as usize
    }
}
