// Marks worked out from pins, and taken back.
#[cfg(test)]
mod tests {
    use crate::sheets::stated;
    use clauses::record::ClauseRecord;
    use marks::index::Index;
    use marks::pins::Pins;
    use marks::tables::Marks;
    use model::cell::Cell;
    use model::path::Side;
    use model::source::ProblemSource;
    use model::table::ProblemTable;
    use sources::water::WaterLine;
    use std::test::Fail;

    fn index_of<S: ProblemSource>(source: &S) -> Index {
        let table = ProblemTable::of(source);
        let record = ClauseRecord::of(source);
        let mut index = Index::empty();
        index.build(&table, &record.rows());
        index
    }

    fn contradicts<S: ProblemSource>(source: &S, length: usize) -> bool {
        let mut marks = Marks::new();
        marks.begin(&index_of(source), &Pins::none(), length);
        marks.contradicts()
    }

    fn is(marks: &Marks, time: u8, step: u8, side: Side) -> bool {
        marks.decided(Cell { time, step }) == Some(side)
    }

    const TWO_STEPS: &[u8] =
        b"MXP 1\nl 2\nf wet\nf done\nt wet\nw done\ns dry\nn wet\nm -wet\ns fit\nn -wet\nm done\n";

    // The two-step sheet forces its four cells at length 2, and contradicts at length 1 and under a pin.
    #[test]
    fn two_steps(rt: HostRuntime) -> Result<(), Fail> {
        let sheet = stated(TWO_STEPS)?;
        let index = index_of(&sheet);
        let mut pins = Pins::none();
        let mut marks = Marks::new();
        marks.begin(&index, &pins, 2);
        assert!(rt;
            !marks.contradicts() && is(&marks, 0, 0, Side::Taken) && is(&marks, 1, 1, Side::Taken)
        );
        assert!(rt; is(&marks, 0, 1, Side::LeftOut) && is(&marks, 1, 0, Side::LeftOut));
        assert!(rt; contradicts(&sheet, 1));
        pins.set(Cell { time: 0, step: 0 }, Side::LeftOut);
        marks.begin(&index, &pins, 2);
        assert!(rt; marks.contradicts());
        Ok(())
    }

    // At length 0 the goal must hold at the start; without steps nothing changes.
    #[test]
    fn bare(rt: HostRuntime) -> Result<(), Fail> {
        assert!(rt; contradicts(&stated(TWO_STEPS)?, 0));
        let held = stated(b"MXP 1\nl 0\nf a\nt a\nw a\n")?;
        assert!(rt; !contradicts(&held, 0) && !contradicts(&held, 3));
        assert!(rt; contradicts(&stated(b"MXP 1\nl 0\nf a\nw a\n")?, 3));
        Ok(())
    }

    // One meter: a contradiction at 5; at 6 four cells are undecided, and a choice is taken back whole.
    #[test]
    fn one_meter(rt: HostRuntime) -> Result<(), Fail> {
        let line = WaterLine::new(1)?;
        assert!(rt; contradicts(&line, 5));
        let index = index_of(&line);
        let mut marks = Marks::new();
        marks.begin(&index, &Pins::none(), 6);
        assert!(rt;
            !marks.contradicts() && is(&marks, 0, 2, Side::Taken) && is(&marks, 0, 1, Side::LeftOut)
        );
        let before = marks.count();
        let cell = Cell { time: 0, step: 0 };
        assert!(rt; marks.decided(cell).is_none());
        marks.decide(&index, cell, Side::Taken);
        assert!(rt; is(&marks, 0, 0, Side::Taken) && marks.count() > before);
        marks.retreat(before);
        assert!(rt; marks.decided(cell).is_none() && marks.count() == before);
        Ok(())
    }
}
