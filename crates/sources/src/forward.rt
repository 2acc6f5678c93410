// The ranking that goes time by time: the cell of time t and step o has place t × steps + o.
ghost use Rattle.sources.specs.Built.{forward};
ghost use Rattle.sources.specs.Bijections.{forward_undo};

use crate::limits::{has_cell, has_place};
use model::cell::Cell;
use model::ranking::Ranking;

#[derive(Clone, Copy)]
pub struct Forward;

impl Ranking for Forward {
    ghost order = { λ _. forward };

    ghost undo = { λ _. forward_undo };

    fn cell(&self, times: usize, steps: usize, place: usize) -> Cell {
        if !has_place(times, steps, place) {
            return Cell { time: 0, step: 0 };
        }
        Cell {
            time: (place / steps) as u8,
            step: (place % steps) as u8,
        }
    }

    fn place(&self, times: usize, steps: usize, cell: Cell) -> usize {
        if !has_cell(times, steps, cell) {
            return 0;
        }
        cell.time as usize * steps + cell.step as usize
    }
}
