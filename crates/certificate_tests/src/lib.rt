//! Tests of the certificate checker over locks written as tables.
#![tactic(auto)]

#[cfg(test)]
mod tests {
    use certificate_check::{check_certificate, check_certificate_of};
    use certificate_theory::Refusal;
    use rank::{Pair, Single};
    use std::test::Fail;
    use system::{Region, System};
    use table::{Shape, Table};

    // The number and the place of the answer: process, index, command; all 0 for acceptance.
    type Answer = (u8, u8, usize, u8);

    fn told(res: Result<(), Refusal>) -> Answer {
        res.err().map_or((0, 0, 0, 0), |refusal| {
            let place = refusal.place();
            (refusal.number(), place.process, place.index, place.command)
        })
    }

    // One process: idle, try, crit and back. Class 0 has the last two commands, class 1 none.
    const RING_SUCCESSORS: [Option<u32>; 9] = [
        Some(1),
        None,
        None,
        None,
        Some(2),
        None,
        None,
        None,
        Some(0),
    ];

    const RING_CLASSES: [Option<u8>; 3] = [None, Some(0), Some(0)];

    const RING_REGIONS: [Region; 3] = [Region::Idle, Region::Try, Region::Crit];

    const RING: [u8; 30] = [
        1, 3, 0, 0, 0, 0, 0, 0, 0, 1, 0, 0, 0, 2, 0, 0, 0, 1, 0, 0, 0, 1, 0, 0, 0, 0, 0, 0, 0, 0,
    ];

    // The indices at which the fields of that certificate begin.
    const RING_FIELDS: [usize; 9] = [0, 1, 5, 9, 13, 17, 21, 25, 26];

    // The same with pairs.
    const PAIRS: [u8; 34] = [
        2, 3, 0, 0, 0, 0, 0, 0, 0, 1, 0, 0, 0, 2, 0, 0, 0, 1, 0, 0, 0, 1, 0, 0, 0, 0, 0, 0, 0, 0,
        9, 0, 0, 0,
    ];

    // One byte more.
    const SURPLUS: [u8; 31] = [
        1, 3, 0, 0, 0, 0, 0, 0, 0, 1, 0, 0, 0, 2, 0, 0, 0, 1, 0, 0, 0, 1, 0, 0, 0, 0, 0, 0, 0, 0, 1,
    ];

    // Without state 2.
    const UNLISTED: [u8; 26] = [
        1, 2, 0, 0, 0, 0, 0, 0, 0, 1, 0, 0, 0, 1, 0, 0, 0, 1, 0, 0, 0, 0, 0, 0, 0, 0,
    ];

    // Without the start.
    const STARTED: [u8; 26] = [
        1, 2, 0, 0, 0, 1, 0, 0, 0, 2, 0, 0, 0, 1, 0, 0, 0, 1, 0, 0, 0, 0, 0, 0, 0, 0,
    ];

    // Without rows.
    const ROWLESS: [u8; 21] = [
        1, 3, 0, 0, 0, 0, 0, 0, 0, 1, 0, 0, 0, 2, 0, 0, 0, 0, 0, 0, 0,
    ];

    // A row that names class 1.
    const DISABLED: [u8; 30] = [
        1, 3, 0, 0, 0, 0, 0, 0, 0, 1, 0, 0, 0, 2, 0, 0, 0, 1, 0, 0, 0, 1, 0, 0, 0, 1, 0, 0, 0, 0,
    ];

    // Two states, and no rows of two processes.
    const NO_ROWS: [u8; 21] = [
        1, 2, 0, 0, 0, 0, 0, 0, 0, 1, 0, 0, 0, 0, 0, 0, 0, 0, 0, 0, 0,
    ];

    // Rows of process 0 that name class 1, and none of process 1.
    const DISABLED_THEN_ROWLESS: [u8; 39] = [
        1, 2, 0, 0, 0, 0, 0, 0, 0, 1, 0, 0, 0, 2, 0, 0, 0, 0, 0, 0, 0, 1, 0, 0, 0, 0, 1, 0, 0, 0,
        1, 0, 0, 0, 0, 0, 0, 0, 0,
    ];

    fn ring_lock(classes: u8) -> Result<Table<'static>, Fail> {
        Ok(Table {
            shape: Shape::new(1, classes, 3, 3, 0).ok_or("shape")?,
            successors: &RING_SUCCESSORS,
            classed: &RING_CLASSES,
            regions: &RING_REGIONS,
        })
    }

    fn ring(classes: u8, bytes: &[u8]) -> Result<Answer, Fail> {
        let lock = ring_lock(classes)?;
        Ok(told(check_certificate(&lock, bytes)))
    }

    // The byte at `at` of the ring's certificate is replaced.
    fn damaged(at: usize, byte: u8) -> Result<Answer, Fail> {
        let mut bytes = RING;
        if at < 30 {
            bytes[at] = byte;
        }
        ring(1, &bytes)
    }

    // The four bytes from `at` on of the ring's certificate are FF.
    fn greatest_count(at: usize) -> Result<Answer, Fail> {
        let mut bytes = RING;
        if at < 27 {
            bytes[at..at + 4].fill(255);
        }
        ring(1, &bytes)
    }

    // A count means nothing until the bytes are there: the first fault behind it decides.
    #[test]
    fn counts_mean_nothing_alone(rt: HostRuntime) -> Result<(), Fail> {
        assert_eq!(rt; greatest_count(1)?, (23, 0, 17, 0));
        assert_eq!(rt; greatest_count(17)?, (21, 0, 30, 0));
        assert_eq!(rt; ring(1, &[1, 255, 255, 255, 255])?, (21, 0, 5, 0));
        Ok(())
    }

    #[test]
    fn the_ring_is_certified(rt: HostRuntime) -> Result<(), Fail> {
        assert_eq!(rt; ring(1, &RING)?, (0, 0, 0, 0));
        assert_eq!(rt; ring(2, &RING)?, (0, 0, 0, 0));
        assert_eq!(rt; ring(1, &PAIRS)?, (0, 0, 0, 0));
        assert_eq!(rt; ring(1, &PAIRS[0..33])?, (21, 0, 30, 0));
        Ok(())
    }

    #[test]
    fn another_kind_is_refused(rt: HostRuntime) -> Result<(), Fail> {
        let lock = ring_lock(1)?;
        assert_eq!(rt;
            told(check_certificate_of::<Single, Table>(&lock, &RING)),
            (0, 0, 0, 0)
        );
        assert_eq!(rt;
            told(check_certificate_of::<Pair, Table>(&lock, &RING)),
            (22, 0, 0, 0)
        );
        Ok(())
    }

    #[test]
    fn a_cut_field_is_told(rt: HostRuntime) -> Result<(), Fail> {
        for n in 0..30usize {
            let begins = RING_FIELDS
                .iter()
                .copied()
                .rev()
                .find(|at| *at <= n)
                .unwrap_or(0);
            assert_eq!(rt; ring(1, &RING[0..n])?, (21, 0, begins, 0));
        }
        Ok(())
    }

    #[test]
    fn each_field_is_judged(rt: HostRuntime) -> Result<(), Fail> {
        assert_eq!(rt; damaged(0, 3)?, (22, 0, 0, 0));
        assert_eq!(rt; damaged(0, 2)?, (21, 0, 30, 0));
        assert_eq!(rt; damaged(1, 255)?, (23, 0, 17, 0));
        assert_eq!(rt; damaged(4, 255)?, (23, 0, 17, 0));
        assert_eq!(rt; damaged(5, 3)?, (23, 0, 5, 0));
        assert_eq!(rt; damaged(5, 1)?, (23, 0, 9, 0));
        assert_eq!(rt; damaged(13, 3)?, (23, 0, 13, 0));
        assert_eq!(rt; damaged(17, 255)?, (21, 0, 30, 0));
        assert_eq!(rt; damaged(17, 0)?, (21, 0, 21, 0));
        assert_eq!(rt; damaged(21, 9)?, (23, 0, 21, 0));
        assert_eq!(rt; damaged(21, 2)?, (28, 0, 1, 0));
        assert_eq!(rt; damaged(25, 1)?, (24, 0, 25, 0));
        assert_eq!(rt; damaged(26, 7)?, (0, 0, 0, 0));
        Ok(())
    }

    #[test]
    fn surplus_and_clauses_are_told(rt: HostRuntime) -> Result<(), Fail> {
        assert_eq!(rt; ring(1, &SURPLUS)?, (21, 0, 30, 0));
        assert_eq!(rt; ring(1, &UNLISTED)?, (27, 0, 1, 1));
        assert_eq!(rt; ring(1, &STARTED)?, (25, 0, 0, 0));
        assert_eq!(rt; ring(1, &ROWLESS)?, (28, 0, 1, 0));
        assert_eq!(rt; ring(2, &DISABLED)?, (29, 0, 1, 0));
        Ok(())
    }

    const TRYING: [Region; 4] = [Region::Try, Region::Try, Region::Try, Region::Try];

    // Both processes hold in state 1.
    const MEETING: [Region; 4] = [Region::Idle, Region::Idle, Region::Crit, Region::Crit];

    // Two processes in states 0 and 1, which both try in both unless the regions say otherwise; command 0 leads from 0 to 1, command 1 back, both of class 0.
    fn pair_of_states(regions: &[Region], bytes: &[u8]) -> Result<Answer, Fail> {
        let lock = Table {
            shape: Shape::new(2, 2, 2, 2, 0).ok_or("shape")?,
            successors: &[Some(1), None, None, Some(0)],
            classed: &[Some(0), Some(0)],
            regions,
        };
        Ok(told(check_certificate(&lock, bytes)))
    }

    // Rows of the two processes at states 0 and 1, with these classes and ranks of process 0 and process 1.
    fn rows(classes: [u8; 2], ranks: [u8; 4]) -> [u8; 57] {
        let [c, d] = classes;
        let [a, b, e, f] = ranks;
        [
            1, 2, 0, 0, 0, 0, 0, 0, 0, 1, 0, 0, 0, 2, 0, 0, 0, 0, 0, 0, 0, c, a, 0, 0, 0, 1, 0, 0,
            0, c, b, 0, 0, 0, 2, 0, 0, 0, 0, 0, 0, 0, d, e, 0, 0, 0, 1, 0, 0, 0, d, f, 0, 0, 0,
        ]
    }

    #[test]
    fn ranks_must_fall(rt: HostRuntime) -> Result<(), Fail> {
        assert_eq!(rt;
            pair_of_states(&TRYING, &rows([0, 0], [0, 0, 0, 0]))?,
            (30, 0, 0, 0)
        );
        assert_eq!(rt;
            pair_of_states(&TRYING, &rows([0, 0], [1, 0, 0, 0]))?,
            (30, 0, 1, 1)
        );
        assert_eq!(rt;
            pair_of_states(&TRYING, &rows([0, 1], [0, 0, 0, 0]))?,
            (29, 1, 0, 0)
        );
        assert_eq!(rt; pair_of_states(&MEETING, &NO_ROWS)?, (26, 0, 1, 0));
        assert_eq!(rt; pair_of_states(&TRYING, &NO_ROWS)?, (28, 0, 0, 0));
        Ok(())
    }

    #[test]
    fn the_number_comes_before_the_process(rt: HostRuntime) -> Result<(), Fail> {
        assert_eq!(rt;
            pair_of_states(&TRYING, &DISABLED_THEN_ROWLESS)?,
            (28, 1, 0, 0)
        );
        Ok(())
    }
}
