// Striking what a step spoils; each struck pair then awaits another look.
ghost use Rattle.std.specs.Prelude.{◌≡◌, true, false};
ghost use Rattle.sets.specs.Sets.{lit_in};
ghost use Rattle.sets.specs.Literals.{Literal, lit, code};
ghost use Rattle.model.specs.Held.{problem_of};
ghost use Rattle.clauses.specs.Striking.{Spoilt, Settled};
ghost use Rattle.clauses.specs.Waiting.{Struck, kept_in};

use crate::number::LiteralNumber;
use crate::record::ClauseRecord;
use model::source::ProblemSource;
use model::table::ProblemTable;
use sets::facts::LiteralSet;

impl ClauseRecord {
    // Strikes the pair, if it still stands.
    fn strike(&mut self, a: LiteralNumber, b: LiteralNumber)
        ensures struck { Struck self.old self.new (λ k x. (code k ≡ a.number) × (code x ≡ b.number)) }
        ensures done { kept_in self.new (lit a.number) (lit b.number) ≡ false }
    {
        if !self.pairs.contains(a.number as usize, b.number as usize) {
            return;
        }
        self.pairs.strike(a, b);
        self.waiting.note(a, b);
    }

    // Strikes a's pairs with all of `gone`.
    fn strike_all(&mut self, a: LiteralNumber, gone: LiteralSet)
        ensures struck { Struck self.old self.new (λ k x. (code k ≡ a.number) × (lit_in gone x ≡ true)) }
        ensures done { (x : Literal) → lit_in gone x ≡ true → kept_in self.new (lit a.number) x ≡ false }
    {
        let mut from = 0;
        while let Some(b) = gone.next_from(from) {
            self.strike(a, LiteralNumber { number: b as u8 });
            from = b + 1;
        }
    }

    // Strikes a's pairs with all but the safe literals.
    fn strike_row(&mut self, a: LiteralNumber, safe: LiteralSet)
        ensures struck { Struck self.old self.new (λ k x. (code k ≡ a.number) × (lit_in safe x ≡ false)) }
        ensures done { (x : Literal) → lit_in safe x ≡ false → kept_in self.new (lit a.number) x ≡ false }
    {
        let gone = self.pairs.row(a.number as usize).minus(safe);
        self.strike_all(a, gone);
    }

    // Strikes the pairs of an undone literal with all but the safe ones.
    fn strike_rows(&mut self, undone: LiteralSet, safe: LiteralSet)
        ensures struck { Struck self.old self.new (λ k x. (lit_in undone k ≡ true) × (lit_in safe x ≡ false)) }
        ensures done { (k : Literal) → lit_in undone k ≡ true → (x : Literal) → lit_in safe x ≡ false → kept_in self.new k x ≡ false }
    {
        let mut from = 0;
        while let Some(a) = undone.next_from(from) {
            self.strike_row(LiteralNumber { number: a as u8 }, safe);
            from = a + 1;
        }
    }

    // Strikes what the step spoils, unless it is closed or barred.
    pub(crate) fn examine(&mut self, problem: &ProblemTable, o: usize)
        ensures struck { Struck self.old self.new (Spoilt (problem_of problem.now) o (kept_in self.old)) }
        ensures settled { Settled (problem_of problem.now) (kept_in self.old) (kept_in self.new) o }
    {
        let step = problem.step(o);
        if !step.enabled {
            return;
        }
        // the needs cannot hold together where two of their opposites are paired
        let against = step.needs.opposites();
        let linked = self.pairs.linked(against);
        if linked.intersects(against) {
            return;
        }
        let known = self.pairs.singles().union(step.needs).union(linked);
        let undone = step.makes.opposites();
        let safe = step.makes.union(known.minus(undone));
        self.strike_rows(undone, safe);
    }
}
