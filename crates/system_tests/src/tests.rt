use std::test::Fail;
use system::{Mask, Region, System, class_enabled, has_class, holder_mask, is_clash, pile};
use table::{Shape, Table};

// A lock of one process: idle, try, crit and back. Its first command has no class.
const SUCCESSORS: [Option<u32>; 9] = [
    Some(1),
    None,
    None,
    None,
    Some(2),
    None,
    None,
    None,
    Some(0),
];

const CLASSED: [Option<u8>; 3] = [None, Some(0), Some(0)];

const REGIONS: [Region; 3] = [Region::Idle, Region::Try, Region::Crit];

fn shaped(processes: u8, classes: u8, commands: u8, states: u32) -> Result<Shape, Fail> {
    Ok(Shape::new(processes, classes, commands, states, 0).ok_or("shape")?)
}

// That lock as a table.
fn cycle() -> Result<Table<'static>, Fail> {
    Ok(Table {
        shape: shaped(1, 1, 3, 3)?,
        successors: &SUCCESSORS,
        classed: &CLASSED,
        regions: &REGIONS,
    })
}

// Where command k leads from state k.
fn steps<S: System>(s: &S) -> (Option<u32>, Option<u32>, Option<u32>) {
    (s.successor(0, 0), s.successor(1, 1), s.successor(2, 2))
}

// What the question answers at the first three states.
fn first_three<T, F: Fn(u32) -> T>(question: F) -> (T, T, T)
    requires { F.IsAlwaysCallable question }
{
    (question(0), question(1), question(2))
}

// Whether the class is enabled at the first three states.
fn enabled<S: System>(s: &S, class: u8) -> (bool, bool, bool) {
    first_three(|state| class_enabled(s, state, class))
}

// The holder masks of the first three states.
fn holders<S: System>(s: &S) -> (u8, u8, u8) {
    first_three(|state| holder_mask(s, state))
}

// Which of the first three states are clashes.
fn clashes<S: System>(s: &S) -> (bool, bool, bool) {
    first_three(|state| is_clash(s, state))
}

// The numbers of the process's regions in the first three states.
fn regions<S: System>(s: &S, process: u8) -> (u8, u8, u8) {
    first_three(|state| s.region(state, process).number())
}

#[test]
fn a_table_answers_its_entries(rt: HostRuntime) -> Result<(), Fail> {
    let lock = cycle()?;
    assert!(rt; lock.is_well_formed());
    assert_eq!(rt;
        (lock.processes(), lock.classes(), lock.commands()),
        (1, 1, 3)
    );
    assert_eq!(rt; (lock.states(), lock.start()), (3, 0));
    assert_eq!(rt; steps(&lock), (Some(1), Some(2), Some(0)));
    assert_eq!(rt;
        (lock.successor(2, 0), lock.class_of(0), lock.class_of(2)),
        (None, None, Some(0))
    );
    assert_eq!(rt; regions(&lock, 0), (0, 1, 2));
    Ok(())
}

#[test]
fn out_of_range_there_is_nothing(rt: HostRuntime) -> Result<(), Fail> {
    let lock = cycle()?;
    assert_eq!(rt;
        (
            lock.successor(3, 0),
            lock.successor(0, 3),
            lock.successor(0, 255),
        ),
        (None, None, None)
    );
    assert_eq!(rt; (lock.class_of(3), lock.class_of(255)), (None, None));
    assert_eq!(rt; regions(&lock, 1), (0, 0, 0));
    assert_eq!(rt;
        (
            lock.region(3, 0).number(),
            lock.region(4294967295, 255).number(),
        ),
        (0, 0)
    );
    assert_eq!(rt;
        (class_enabled(&lock, 3, 0), class_enabled(&lock, 1, 1)),
        (false, false)
    );
    assert_eq!(rt; (holder_mask(&lock, 3), is_clash(&lock, 3)), (0, false));
    Ok(())
}

#[test]
fn shapes_out_of_bounds_are_refused(rt: HostRuntime) {
    assert!(rt; Shape::new(0, 0, 0, 1, 0).is_none());
    assert!(rt; Shape::new(1, 0, 0, 1, 0).is_some());
    assert!(rt; Shape::new(8, 16, 64, 65536, 65535).is_some());
    assert!(rt; Shape::new(9, 16, 64, 65536, 65535).is_none());
    assert!(rt; Shape::new(8, 17, 64, 65536, 65535).is_none());
    assert!(rt; Shape::new(8, 16, 65, 65536, 65535).is_none());
    assert!(rt; Shape::new(8, 16, 64, 65537, 65535).is_none());
    assert!(rt; Shape::new(8, 16, 64, 65536, 65536).is_none());
}

// Two states, one command, one process.
#[test]
fn arrays_that_are_ill_formed_are_told(rt: HostRuntime) -> Result<(), Fail> {
    let shape = shaped(1, 1, 1, 2)?;
    let regions = [Region::Idle, Region::Idle];
    let good = Table {
        shape,
        successors: &[Some(1), Some(0)],
        classed: &[Some(0)],
        regions: &regions,
    };
    let short = Table {
        successors: &[Some(1)],
        ..good
    };
    let long = Table {
        classed: &[Some(0), None],
        ..good
    };
    let few = Table {
        regions: &[Region::Crit],
        ..good
    };
    let far = Table {
        successors: &[Some(2), Some(0)],
        ..good
    };
    let high = Table {
        classed: &[Some(1)],
        ..good
    };
    assert_eq!(rt;
        (
            good.is_well_formed(),
            short.is_well_formed(),
            long.is_well_formed(),
        ),
        (true, false, false)
    );
    assert_eq!(rt;
        (
            few.is_well_formed(),
            far.is_well_formed(),
            high.is_well_formed(),
        ),
        (false, false, false)
    );
    assert_eq!(rt;
        (
            good.successor(0, 0),
            far.successor(0, 0),
            short.successor(1, 0),
        ),
        (Some(1), None, None)
    );
    assert_eq!(rt; (good.class_of(0), high.class_of(0)), (Some(0), None));
    assert_eq!(rt;
        (few.region(0, 0).number(), few.region(1, 0).number()),
        (2, 0)
    );
    Ok(())
}

#[test]
fn a_mask_disables_its_commands(rt: HostRuntime) -> Result<(), Fail> {
    let inner = cycle()?;
    assert_eq!(rt;
        steps(&Mask { inner, mask: 0 }),
        (Some(1), Some(2), Some(0))
    );
    assert_eq!(rt; steps(&Mask { inner, mask: 1 }), (None, Some(2), Some(0)));
    assert_eq!(rt; steps(&Mask { inner, mask: 2 }), (Some(1), None, Some(0)));
    assert_eq!(rt; steps(&Mask { inner, mask: 4 }), (Some(1), Some(2), None));
    assert_eq!(rt;
        steps(&Mask {
            inner,
            mask: 0xffff_ffff_ffff_fff8,
        },),
        (Some(1), Some(2), Some(0))
    );
    assert_eq!(rt; steps(&pile(inner, 1, 4)), (None, Some(2), None));
    assert_eq!(rt; steps(&pile(inner, 4, 1)), (None, Some(2), None));
    assert_eq!(rt; steps(&pile(inner, 3, 2)), (None, None, Some(0)));
    Ok(())
}

#[test]
fn a_mask_disables_a_class_and_keeps_the_rest(rt: HostRuntime) -> Result<(), Fail> {
    let inner = cycle()?;
    let m = Mask { inner, mask: 2 };
    assert_eq!(rt; enabled(&inner, 0), (false, true, true));
    assert_eq!(rt; enabled(&m, 0), (false, false, true));
    assert_eq!(rt;
        (
            has_class(&m, 0, 0),
            has_class(&m, 1, 0),
            has_class(&m, 1, 1),
        ),
        (false, true, false)
    );
    assert_eq!(rt; (m.processes(), m.classes(), m.commands()), (1, 1, 3));
    assert_eq!(rt; (m.states(), m.start()), (3, 0));
    assert_eq!(rt; regions(&m, 0), (0, 1, 2));
    Ok(())
}

// Two processes share one bit: nobody is in, process 0 is in, process 1 is in.
#[test]
fn one_bit_for_two_processes(rt: HostRuntime) -> Result<(), Fail> {
    let lock = Table {
        shape: shaped(2, 2, 4, 3)?,
        successors: &[
            Some(1),
            None,
            Some(2),
            None,
            None,
            Some(0),
            None,
            None,
            None,
            None,
            None,
            Some(0),
        ],
        classed: &[Some(0), Some(0), Some(1), Some(1)],
        regions: &[
            Region::Try,
            Region::Try,
            Region::Crit,
            Region::Try,
            Region::Try,
            Region::Crit,
        ],
    };
    assert!(rt; lock.is_well_formed());
    assert_eq!(rt; clashes(&lock), (false, false, false));
    assert_eq!(rt; enabled(&lock, 0), (true, true, false));
    assert_eq!(rt; enabled(&lock, 1), (true, false, true));
    assert_eq!(rt;
        enabled(
            &Mask {
                inner: lock,
                mask: 4,
            },
            1,
        ),
        (false, false, true)
    );
    assert_eq!(rt; regions(&lock, 1), (1, 1, 2));
    Ok(())
}

// One state and sixty-four commands, of class 15 at the last and of none before.
#[test]
fn the_last_of_sixty_four_commands(rt: HostRuntime) -> Result<(), Fail> {
    let mut classed = [None; 64];
    classed[63] = Some(15);
    let inner = Table {
        shape: shaped(1, 16, 64, 1)?,
        successors: &[Some(0); 64],
        classed: &classed,
        regions: &[Region::Exit],
    };
    let last = Mask {
        inner,
        mask: 1 << 63,
    };
    let others = Mask {
        inner,
        mask: !(1 << 63),
    };
    assert_eq!(rt;
        (
            inner.successor(0, 62),
            inner.successor(0, 63),
            inner.successor(0, 64),
        ),
        (Some(0), Some(0), None)
    );
    assert_eq!(rt;
        (
            last.successor(0, 62),
            last.successor(0, 63),
            last.successor(0, 64),
        ),
        (Some(0), None, None)
    );
    assert_eq!(rt;
        (
            others.successor(0, 62),
            others.successor(0, 63),
            others.successor(0, 127),
        ),
        (None, Some(0), None)
    );
    assert_eq!(rt; enabled(&inner, 15), (true, false, false));
    assert_eq!(rt; enabled(&last, 15), (false, false, false));
    assert_eq!(rt; enabled(&others, 15), (true, false, false));
    assert_eq!(rt; regions(&inner, 0), (3, 0, 0));
    Ok(())
}

// Eight processes and three states: the last holds, the first and the last, and three.
#[test]
fn holders_of_eight_processes(rt: HostRuntime) -> Result<(), Fail> {
    let mut regions = [Region::Try; 24];
    regions[7] = Region::Crit;
    regions[8] = Region::Crit;
    regions[15] = Region::Crit;
    regions[17] = Region::Crit;
    regions[19] = Region::Crit;
    regions[22] = Region::Crit;
    let lock = Table {
        shape: shaped(8, 0, 0, 3)?,
        successors: &[],
        classed: &[],
        regions: &regions,
    };
    assert!(rt; lock.is_well_formed());
    assert_eq!(rt; holders(&lock), (128, 129, 74));
    assert_eq!(rt; clashes(&lock), (false, true, true));
    Ok(())
}

// Eight processes: all hold, all but the first, and nobody past the last state.
#[test]
fn all_eight_hold(rt: HostRuntime) -> Result<(), Fail> {
    let mut regions = [Region::Crit; 16];
    regions[8] = Region::Idle;
    let lock = Table {
        shape: shaped(8, 0, 0, 2)?,
        successors: &[],
        classed: &[],
        regions: &regions,
    };
    assert_eq!(rt; holders(&lock), (255, 254, 0));
    assert_eq!(rt; clashes(&lock), (true, true, false));
    Ok(())
}
