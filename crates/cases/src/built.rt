// The built sources and rankings: how many meters, zeros beyond the limits, and a filter that closes a step.
#[cfg(test)]
mod tests {
    use crate::sheets::stated;
    use model::cell::Cell;
    use model::ranking::Ranking;
    use model::source::ProblemSource;
    use sets::facts::LiteralSet;
    use sources::by_step::ByStep;
    use sources::filter::ReachFilter;
    use sources::forward::Forward;
    use sources::water::WaterLine;
    use std::test::Fail;

    #[test]
    fn meters(rt: HostRuntime) -> Result<(), Fail> {
        let line = WaterLine::new(8)?;
        assert!(rt; line.facts() == 57 && line.steps() == 58);
        let fault = WaterLine::new(9).err().ok_or("9 meters")?;
        assert_eq!(rt; u8::from(fault), 31);
        Ok(())
    }

    #[test]
    fn rankings(rt: HostRuntime) {
        let zero = Cell { time: 0, step: 0 };
        assert!(rt; Forward.cell(6, 9, 53) == Cell { time: 5, step: 8 });
        assert!(rt; ByStep.cell(6, 9, 6) == Cell { time: 0, step: 1 });
        assert!(rt; Forward.cell(6, 9, 54) == zero && ByStep.cell(33, 9, 6) == zero);
        assert!(rt;
            Forward.place(6, 9, Cell { time: 5, step: 8 }) == 53
                && ByStep.place(6, 9, Cell { time: 6, step: 8 }) == 0
        );
    }

    // Step x needs b, which nothing makes; step y is useless for any goal and stays open.
    #[test]
    fn filtered(rt: HostRuntime) -> Result<(), Fail> {
        let problem = stated(b"MXP 1\nl 2\nf a\nf b\ns x\nn b\nm a\ns y\nm -a\n")?;
        assert!(rt; problem.step(0).enabled);
        let filter = ReachFilter::new(problem);
        assert!(rt; !filter.step(0).enabled && filter.step(1).enabled && !filter.step(2).enabled);
        Ok(())
    }

    fn same(a: LiteralSet, b: LiteralSet) -> bool {
        a.subset(b) && b.subset(a)
    }

    fn same_steps<A: ProblemSource, B: ProblemSource>(a: &A, b: &B) -> bool {
        (0..256).all(|o| {
            let (x, y) = (a.step(o), b.step(o));
            x.enabled == y.enabled && same(x.needs, y.needs) && same(x.makes, y.makes)
        })
    }

    // The line of one meter and the same riser as a sheet answer alike.
    #[test]
    fn same_riser(rt: HostRuntime) -> Result<(), Fail> {
        let line = WaterLine::new(1)?;
        let sheet = stated(
            b"MXP 1\nl 6\nf open\nf old\nf gap\nf new\nf noted\nf sealed\nf radio\nf paired\nt open\nt old\nt sealed\nw open\nw paired\nw sealed\ns shut\nn open\nm -open\ns turnon\nn -open\nn -gap\nm open\ns note\nn old\nm noted\ns unseal\nn sealed\nn noted\nm -sealed\ns lift\nn old\nn -sealed\nn -open\nm -old\nm gap\ns fit\nn gap\nn -open\nm -gap\nm new\ns clip\nn new\nm radio\ns pair\nn radio\nn open\nm paired\ns seal\nn new\nn open\nm sealed\n",
        )?;
        assert!(rt; line.facts() == sheet.facts() && line.steps() == sheet.steps());
        assert!(rt; same_steps(&line, &sheet));
        assert!(rt; same(line.goal(), sheet.goal()));
        assert!(rt; line.start().subset(sheet.start()) && sheet.start().subset(line.start()));
        Ok(())
    }
}
