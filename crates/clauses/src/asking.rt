// Asking the clause record.
ghost use Rattle.std.specs.Prelude.{◌≡◌, slice_index_or};
ghost use Rattle.sets.specs.Sets.{lit_in, no_literals};
ghost use Rattle.sets.specs.Literals.{Literal, lit, code};
ghost use Rattle.clauses.specs.Waiting.{kept_in};
ghost use Rattle.clauses.specs.Asking.{kept_answer};

use crate::record::ClauseRecord;
use model::answers::Decline;
use sets::facts::LiteralSet;

impl ClauseRecord {
    // Whether the pair of two literals is kept, by their numbers; declined for one that is not the problem's.
    pub fn kept(&self, a: usize, b: usize) -> Result<bool, Decline>
        ensures { result ≡ kept_answer self.now a b }
    {
        if a / 2 < self.facts && b / 2 < self.facts {
            Ok(self.pairs.contains(a, b))
        } else {
            Err(Decline::OutOfRange)
        }
    }

    // The literals that a literal is kept in a pair with.
    pub fn row(&self, a: usize) -> LiteralSet
        ensures { (l : Literal) → lit_in result l ≡ kept_in self.now (lit a) l }
    {
        self.pairs.row(a)
    }

    // By a literal's number, the literals that it is kept in a pair with.
    pub fn rows(&self) -> [LiteralSet; 128]
        ensures { (a b : Literal) → lit_in (slice_index_or result (code a) no_literals) b ≡ kept_in self.now a b }
    {
        *self.pairs.table()
    }
}
