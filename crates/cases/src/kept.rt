// Kept clauses, counted and compared with an independent computation.
#[cfg(test)]
mod tests {
    use crate::sheets::stated;
    use clauses::record::ClauseRecord;
    use model::source::ProblemSource;
    use sources::water::WaterLine;
    use std::test::Fail;

    // How many pairs of the literal with one of a number at or above its own are kept.
    fn kept_from(record: &ClauseRecord, a: usize) -> usize {
        (a..128)
            .filter(|b| matches!(record.kept(a, *b), Ok(true)))
            .count()
    }

    fn kept<S: ProblemSource>(source: &S) -> usize {
        let record = ClauseRecord::of(source);
        (0..128).fold(0usize, |n, a| n.wrapping_add(kept_from(&record, a)))
    }

    #[test]
    fn counts(rt: HostRuntime) -> Result<(), Fail> {
        let sheet = stated(
            b"MXP 1\nl 2\nf wet\nf done\nt wet\nw done\ns dry\nn wet\nm -wet\ns fit\nn -wet\nm done\n",
        )?;
        assert!(rt; kept(&sheet) == 3);
        assert!(rt; kept(&WaterLine::new(1)?) == 26);
        assert!(rt; kept(&WaterLine::new(8)?) == 201);
        Ok(())
    }

    // d holds throughout and lets c be made, c lets b, b undoes a: each pair goes only once the one before it has gone.
    #[test]
    fn several_rounds(rt: HostRuntime) -> Result<(), Fail> {
        let chain = stated(
            b"MXP 1\nl 1\nf a\nf b\nf c\nf d\nt a\nt d\ns x\nn b\nm -a\ns y\nn c\nm b\ns z\nn d\nm c\n",
        )?;
        assert!(rt; kept(&chain) == 14);
        let record = ClauseRecord::of(&chain);
        assert!(rt; record.kept(6, 6)? && !record.kept(0, 0)?);
        assert!(rt; record.kept(0, 1)? && record.kept(5, 4)?);
        assert!(rt; record.kept(8, 0).is_err() && record.kept(0, 8).is_err());
        Ok(())
    }
}
