// The clause record of a problem.
use crate::pairs::Pairs;
use crate::waiting::Waiting;

// The pairs that are kept and, while it is made, the struck ones that await another look.
#[derive(Drop)]
pub struct ClauseRecord {
    pub(crate) facts: usize,
    pub(crate) pairs: Pairs,
    pub(crate) waiting: Waiting,
}
