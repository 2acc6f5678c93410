// The planner's calls on the water line: refusals, pins, the path and the card.
#[cfg(test)]
mod tests {
    use model::answers::{Decline, Forced, Outcome};
    use planner::call::{Answer, Call};
    use planner::tables::Planner;
    use sources::by_step::ByStep;
    use sources::forward::Forward;
    use sources::water::WaterLine;
    use std::test::Fail;

    // Each refusal with its number's reason, smallest first.
    #[test]
    fn refusals(rt: HostRuntime) -> Result<(), Fail> {
        let mut planner = Planner::new();
        assert_eq!(rt; planner.run(0), Err(Decline::Unopened));
        assert_eq!(rt; planner.ask(33, &Forward), Err(Decline::Unopened));
        planner.open(&WaterLine::new(1)?);
        assert_eq!(rt; planner.pin(9, 99, true), Err(Decline::Unasked));
        assert_eq!(rt; planner.ask(33, &Forward), Err(Decline::TooLong));
        planner.ask(6, &Forward)?;
        assert_eq!(rt; planner.pin(6, 0, true), Err(Decline::OutOfRange));
        assert_eq!(rt; planner.pin(0, 9, true), Err(Decline::OutOfRange));
        assert_eq!(rt; planner.unpin(0, 0), Err(Decline::Unpinned));
        planner.pin(0, 0, false)?;
        assert_eq!(rt; planner.pin(0, 0, true), Err(Decline::Pinned));
        assert_eq!(rt; planner.run(0), Err(Decline::Grant));
        assert_eq!(rt; planner.run(1000001), Err(Decline::Grant));
        assert_eq!(rt; planner.report(&mut [0; 7]), Err(Decline::TooShort));
        Ok(())
    }

    // Length 5 is too short for one meter; at 6 a pin may demand another plan, or rule out all.
    #[test]
    fn pinned(rt: HostRuntime) -> Result<(), Fail> {
        let mut planner = Planner::new();
        planner.open(&WaterLine::new(1)?);
        planner.ask(5, &ByStep)?;
        assert_eq!(rt; planner.run(1000000), Ok(Outcome::NoPlan));
        planner.ask(6, &ByStep)?;
        assert_eq!(rt; planner.run(1000000), Ok(Outcome::Plan));
        assert_eq!(rt; planner.run(1), Ok(Outcome::Plan));
        planner.pin(0, 2, false)?;
        assert_eq!(rt; planner.run(1000000), Ok(Outcome::NoPlan));
        planner.unpin(0, 2)?;
        assert_eq!(rt; planner.run(1000000), Ok(Outcome::Plan));
        Ok(())
    }

    // What the pins force of cells, before and after a pin that rules every plan out, and without a look at what a run found.
    #[test]
    fn forced_cells(rt: HostRuntime) -> Result<(), Fail> {
        let mut planner = Planner::new();
        planner.open(&WaterLine::new(1)?);
        assert_eq!(rt; planner.forced(0, 0), Err(Decline::Unasked));
        planner.ask(6, &Forward)?;
        assert_eq!(rt; planner.forced(6, 0), Err(Decline::OutOfRange));
        assert_eq!(rt; planner.run(1000000), Ok(Outcome::Plan));
        assert_eq!(rt; planner.forced(0, 2), Ok(Forced::Taken));
        assert_eq!(rt; planner.forced(0, 1), Ok(Forced::LeftOut));
        assert_eq!(rt; planner.forced(0, 0), Ok(Forced::Undecided));
        assert_eq!(rt; planner.forced(1, 0), Ok(Forced::Undecided));
        planner.pin(0, 0, false)?;
        assert_eq!(rt; planner.forced(1, 0), Ok(Forced::Taken));
        planner.pin(0, 2, false)?;
        assert_eq!(rt; planner.forced(5, 8), Ok(Forced::Contradiction));
        Ok(())
    }

    // A list of calls, carried out as far as there are places for answers.
    #[test]
    fn a_list(rt: HostRuntime) -> Result<(), Fail> {
        let mut planner = Planner::new();
        let water = WaterLine::new(1)?;
        let calls = [
            Call::Open,
            Call::Ask { length: 6 },
            Call::Run(1000000),
            Call::Report,
            Call::Run(0),
        ];
        let mut answers = [Ok(Answer::Done); 4];
        let mut out = [0; 64];
        assert!(rt; planner.carry_out(&calls, &water, &Forward, &mut answers, &mut out) == 4);
        match answers[3] {
            Ok(Answer::Wrote(n)) => {
                assert!(rt; n == 36);
                Ok(())
            }
            _ => Err(Fail::new("no card")),
        }
    }
}
