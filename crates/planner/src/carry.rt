// Carrying out a call that is handed in as a value.
ghost use Rattle.std.specs.Prelude.{◌≡◌, min, false, length, take, drop};
ghost use Rattle.planner.specs.Obeys.{Obeys};
ghost use Rattle.planner.specs.Carried.{event_of, writes, CarriedOut};

use crate::call::{Answer, Call};
use crate::tables::Planner;
use model::answers::Decline;
use model::ranking::Ranking;
use model::source::ProblemSource;

impl Planner {
    // Carries out one call. Only an open looks at the source, only an ask at the ranking, and only a report writes into the bytes.
    pub fn carry<S: ProblemSource, R: Ranking>(
        &mut self,
        call: Call,
        source: &S,
        ranking: &R,
        out: &mut [u8],
    ) -> Result<Answer, Decline>
        ensures obeys { Obeys self.old (event_of (S.meaning source.now) (R.order ranking.now) call result out.old out.new) self.new }
        ensures same { writes call ≡ false → out.new ≡ out.old }
    {
        match call {
            Call::Open => {
                self.open(source);
                Ok(Answer::Done)
            }
            Call::Ask { length } => self.ask(length, ranking).map(|()| Answer::Done),
            Call::Pin { time, step, taken } => self.pin(time, step, taken).map(|()| Answer::Done),
            Call::Unpin { time, step } => self.unpin(time, step).map(|()| Answer::Done),
            Call::Run(choices) => self.run(choices).map(Answer::Ran),
            Call::Forced { time, step } => self.forced(time, step).map(Answer::Forced),
            Call::Path(place) => self.path(place).map(Answer::Entry),
            Call::Report => self.report(out).map(Answer::Wrote),
        }
    }

    // Carries out the calls in their order, each answer in its place, for as many as there are places, and says how many that is.
    pub fn carry_out<S: ProblemSource, R: Ranking>(
        &mut self,
        calls: &[Call],
        source: &S,
        ranking: &R,
        answers: &mut [Result<Answer, Decline>],
        out: &mut [u8],
    ) -> usize
        ensures count { result ≡ min (length calls.now) (length answers.old) }
        ensures carried { CarriedOut (S.meaning source.now) (R.order ranking.now) self.old (take result calls.now) (take result answers.new) out.old self.new out.new }
        ensures beyond { drop result answers.new ≡ drop result answers.old }
    {
        let count = calls.len().min(answers.len());
        // By index: what is written through `zip` with the answers' `iter_mut` is not known after the loop.
        for (i, call) in calls[..count].iter().enumerate() {
            answers[i] = self.carry(*call, source, ranking, out);
        }
        count
    }
}
