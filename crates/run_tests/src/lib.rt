//! Tests of the run checker over locks written as tables.
#![tactic(auto)]

#[cfg(test)]
mod tests {
    use run_check::check_run;
    use std::test::Fail;
    use system::Region::{self, Crit, Idle, Try};
    use system::System;
    use table::{Shape, Table};

    // The number and the place of the answer: process, index, command; all 0 for acceptance.
    type Answer = (u8, u8, usize, u8);

    // What the checker answers.
    fn answer<S: System>(system: &S, bytes: &[u8]) -> Answer {
        check_run(system, bytes)
            .err()
            .map_or((0, 0, 0, 0), |refusal| {
                let place = refusal.place();
                (refusal.number(), place.process, place.index, place.command)
            })
    }

    // Whether the checker answers what is wanted.
    fn expect<S: System>(lock: &S, bytes: &[u8], wanted: Answer) -> Result<(), Fail> {
        if answer(lock, bytes) == wanted {
            Ok(())
        } else {
            Err(Fail::new("another answer"))
        }
    }

    // One process: idle, try, crit and back; only the last command has a class.
    const UNCLASSED_SUCCESSORS: [[Option<u32>; 3]; 3] = [
        [Some(1), None, None],
        [None, Some(2), None],
        [None, None, Some(0)],
    ];

    const UNCLASSED_CLASSES: [Option<u8>; 3] = [None, None, Some(0)];

    const UNCLASSED_REGIONS: [[Region; 1]; 3] = [[Idle], [Try], [Crit]];

    // The lock with so many processes, classes, commands and states, and these entries; it starts in state 0.
    fn lock(
        (processes, classes, commands, states): (u8, u8, u8, u32),
        successors: &'static [Option<u32>],
        classed: &'static [Option<u8>],
        regions: &'static [Region],
    ) -> Result<Table<'static>, Fail> {
        Ok(Table {
            shape: Shape::new(processes, classes, commands, states, 0).ok_or("shape")?,
            successors,
            classed,
            regions,
        })
    }

    fn unclassed() -> Result<Table<'static>, Fail> {
        lock(
            (1, 1, 3, 3),
            UNCLASSED_SUCCESSORS.as_flattened(),
            &UNCLASSED_CLASSES,
            UNCLASSED_REGIONS.as_flattened(),
        )
    }

    // Two processes and a bit that each tests and sets. A state is the bit, then the places of process 0 and process 1, as
    // digits of a number in base 2, 3 and 3, lightest first. Commands 0 to 2 are of process 0: to try, to crit, back.
    const TEST_AND_SET_SUCCESSORS: [[Option<u32>; 6]; 18] = [
        [Some(2), None, None, Some(6), None, None],
        [Some(3), None, None, Some(7), None, None],
        [None, Some(5), None, Some(8), None, None],
        [None, None, None, Some(9), None, None],
        [None, None, Some(0), Some(10), None, None],
        [None, None, Some(0), Some(11), None, None],
        [Some(8), None, None, None, Some(13), None],
        [Some(9), None, None, None, None, None],
        [None, Some(11), None, None, Some(15), None],
        [None, None, None, None, None, None],
        [None, None, Some(6), None, Some(17), None],
        [None, None, Some(6), None, None, None],
        [Some(14), None, None, None, None, Some(0)],
        [Some(15), None, None, None, None, Some(0)],
        [None, Some(17), None, None, None, Some(2)],
        [None, None, None, None, None, Some(2)],
        [None, None, Some(12), None, None, Some(4)],
        [None, None, Some(12), None, None, Some(4)],
    ];

    const TEST_AND_SET_CLASSES: [Option<u8>; 6] = [None, Some(0), Some(0), None, Some(1), Some(1)];

    const TEST_AND_SET_REGIONS: [[Region; 2]; 18] = [
        [Idle, Idle],
        [Idle, Idle],
        [Try, Idle],
        [Try, Idle],
        [Crit, Idle],
        [Crit, Idle],
        [Idle, Try],
        [Idle, Try],
        [Try, Try],
        [Try, Try],
        [Crit, Try],
        [Crit, Try],
        [Idle, Crit],
        [Idle, Crit],
        [Try, Crit],
        [Try, Crit],
        [Crit, Crit],
        [Crit, Crit],
    ];

    fn test_and_set() -> Result<Table<'static>, Fail> {
        lock(
            (2, 2, 6, 18),
            TEST_AND_SET_SUCCESSORS.as_flattened(),
            &TEST_AND_SET_CLASSES,
            TEST_AND_SET_REGIONS.as_flattened(),
        )
    }

    // Two processes that enter crit as they like: state 3 is a clash.
    const OPEN_DOOR_SUCCESSORS: [[Option<u32>; 2]; 4] = [
        [Some(1), Some(2)],
        [None, Some(3)],
        [Some(3), None],
        [None, None],
    ];

    const OPEN_DOOR_CLASSES: [Option<u8>; 2] = [None, None];

    const OPEN_DOOR_REGIONS: [[Region; 2]; 4] = [
        [Idle, Idle],
        [Crit, Idle],
        [Idle, Crit],
        [Crit, Crit],
    ];

    fn open_door() -> Result<Table<'static>, Fail> {
        lock(
            (2, 0, 2, 4),
            OPEN_DOOR_SUCCESSORS.as_flattened(),
            &OPEN_DOOR_CLASSES,
            OPEN_DOOR_REGIONS.as_flattened(),
        )
    }

    #[test]
    fn resting_is_just_without_a_class() -> Result<(), Fail> {
        let lock = unclassed()?;
        expect(&lock, &[2, 0, 1, 0, 0, 0, 0, 1, 0, 0, 0, 255], (0, 0, 0, 0))?;
        expect(&lock, &[2, 0, 0, 0, 0, 0, 1, 0, 0, 0, 255], (39, 0, 0, 0))?;
        expect(
            &lock,
            &[2, 0, 2, 0, 0, 0, 0, 1, 1, 0, 0, 0, 255],
            (39, 0, 2, 0),
        )?;
        expect(&lock, &[1, 0, 1, 0, 0, 0, 0, 0, 0, 0, 0], (37, 0, 1, 0))
    }

    #[test]
    fn the_other_process_goes_round() -> Result<(), Fail> {
        let lock = test_and_set()?;
        expect(
            &lock,
            &[2, 0, 1, 0, 0, 0, 0, 3, 0, 0, 0, 3, 4, 5],
            (0, 0, 0, 0),
        )?;
        expect(
            &lock,
            &[2, 0, 2, 0, 0, 0, 0, 3, 3, 0, 0, 0, 4, 5, 3],
            (0, 0, 0, 0),
        )?;
        expect(
            &lock,
            &[2, 0, 1, 0, 0, 0, 0, 4, 0, 0, 0, 3, 255, 4, 5],
            (0, 0, 0, 0),
        )?;
        expect(
            &lock,
            &[2, 0, 1, 0, 0, 0, 0, 2, 0, 0, 0, 3, 4],
            (38, 0, 15, 0),
        )?;
        expect(
            &lock,
            &[2, 0, 1, 0, 0, 0, 0, 1, 0, 0, 0, 255],
            (40, 0, 0, 0),
        )
    }

    #[test]
    fn a_clash_at_the_end_of_the_stem() -> Result<(), Fail> {
        let lock = open_door()?;
        expect(&lock, &[1, 0, 2, 0, 0, 0, 0, 1, 0, 0, 0, 0], (0, 0, 0, 0))?;
        expect(
            &lock,
            &[1, 0, 3, 0, 0, 0, 1, 255, 0, 0, 0, 0, 0],
            (0, 0, 0, 0),
        )?;
        expect(&lock, &[1, 0, 1, 0, 0, 0, 1, 0, 0, 0, 0], (37, 0, 2, 0))?;
        expect(&lock, &[1, 0, 0, 0, 0, 0, 0, 0, 0, 0], (37, 0, 0, 0))?;
        expect(&lock, &[1, 0, 2, 0, 0, 0, 0, 0, 0, 0, 0, 0], (36, 0, 1, 0))
    }

    #[test]
    fn cut_at_every_byte() -> Result<(), Fail> {
        let lock = test_and_set()?;
        let run = [2, 0, 1, 0, 0, 0, 0, 3, 0, 0, 0, 3, 4, 5];
        let fields = [0, 1, 2, 2, 2, 2, 6, 7, 7, 7, 7, 11, 12, 13];
        for (n, field) in fields.iter().enumerate() {
            expect(&lock, &run[..n], (31, 0, *field, 0))?;
        }
        Ok(())
    }

    #[test]
    fn a_wrong_field() -> Result<(), Fail> {
        let lock = test_and_set()?;
        expect(&lock, &[0, 9], (32, 0, 0, 0))?;
        expect(
            &lock,
            &[3, 0, 1, 0, 0, 0, 0, 3, 0, 0, 0, 3, 4, 5],
            (32, 0, 0, 0),
        )?;
        expect(
            &lock,
            &[2, 2, 1, 0, 0, 0, 0, 3, 0, 0, 0, 3, 4, 5],
            (33, 0, 1, 0),
        )?;
        expect(&lock, &[1, 1, 0, 0, 0, 0, 0, 0, 0, 0], (33, 0, 1, 0))?;
        expect(
            &lock,
            &[2, 0, 1, 0, 0, 0, 6, 3, 0, 0, 0, 3, 4, 5],
            (34, 0, 6, 0),
        )?;
        expect(
            &lock,
            &[2, 0, 1, 0, 0, 0, 0, 3, 0, 0, 0, 3, 254, 5],
            (34, 0, 12, 0),
        )?;
        expect(&lock, &[2, 0, 1, 0, 0, 0, 0, 0, 0, 0, 0], (35, 0, 7, 0))?;
        expect(&lock, &[1, 0, 0, 0, 0, 0, 1, 0, 0, 0], (35, 0, 6, 0))?;
        expect(
            &lock,
            &[2, 0, 1, 0, 0, 0, 0, 3, 0, 0, 0, 3, 4, 5, 0],
            (31, 0, 14, 0),
        )
    }

    #[test]
    fn the_shortest_of_each_fault() -> Result<(), Fail> {
        let lock = test_and_set()?;
        expect(&lock, &[], (31, 0, 0, 0))?;
        expect(&lock, &[3], (32, 0, 0, 0))?;
        expect(&lock, &[2, 2], (33, 0, 1, 0))?;
        expect(&lock, &[2, 0, 1, 0, 0, 0, 6], (34, 0, 6, 0))?;
        expect(&lock, &[2, 0, 1, 0, 0, 0, 0, 0, 0, 0, 0], (35, 0, 7, 0))?;
        expect(&lock, &[1, 0, 1, 0, 0, 0, 0, 0, 0, 0, 0], (37, 0, 2, 0))
    }

    #[test]
    fn counts_mean_nothing_until_the_bytes_are_there() -> Result<(), Fail> {
        let lock = test_and_set()?;
        expect(&lock, &[2, 0, 255, 255, 255, 255], (31, 0, 6, 0))?;
        expect(&lock, &[2, 0, 255, 255, 255, 255, 0, 255], (31, 0, 8, 0))?;
        expect(&lock, &[2, 0, 255, 255, 255, 255, 0, 77], (34, 0, 7, 0))?;
        expect(
            &lock,
            &[2, 0, 0, 0, 0, 0, 255, 255, 255, 255],
            (31, 0, 10, 0),
        )?;
        expect(&lock, &[2, 0, 0, 1, 0, 0, 0], (31, 0, 7, 0))?;
        expect(&lock, &[1, 0, 0, 0, 0, 0, 0, 0, 0, 1], (35, 0, 6, 0))
    }

    #[test]
    fn the_order_of_causes() -> Result<(), Fail> {
        let lock = test_and_set()?;
        expect(
            &lock,
            &[2, 0, 1, 0, 0, 0, 1, 1, 0, 0, 0, 255],
            (36, 0, 0, 1),
        )?;
        expect(
            &lock,
            &[2, 0, 1, 0, 0, 0, 0, 3, 0, 0, 0, 3, 4, 4],
            (36, 0, 3, 4),
        )?;
        expect(
            &lock,
            &[2, 1, 1, 0, 0, 0, 0, 2, 0, 0, 0, 3, 4],
            (38, 0, 15, 0),
        )?;
        expect(
            &lock,
            &[2, 1, 1, 0, 0, 0, 0, 1, 0, 0, 0, 255],
            (39, 1, 2, 0),
        )?;
        expect(
            &lock,
            &[2, 1, 2, 0, 0, 0, 0, 3, 3, 0, 0, 0, 4, 5, 3],
            (39, 1, 2, 0),
        )?;
        expect(
            &lock,
            &[2, 0, 3, 0, 0, 0, 0, 3, 4, 1, 0, 0, 0, 255],
            (40, 0, 0, 1),
        )?;
        expect(
            &lock,
            &[2, 0, 6, 0, 0, 0, 0, 3, 4, 5, 3, 4, 1, 0, 0, 0, 255],
            (40, 0, 0, 1),
        )
    }
}
