//! Lock programs filled by hand, and the steps that they take.
#![tactic(auto)]

use expression::{Item, Operator};
use lock_program::{LockProgram, Transition, Unfit};
use system::{Region, System};

// Two processes and a flag `m`: idle, try while `m` is set, crit.
fn two_processes() -> Result<LockProgram, Unfit> {
    let mut lock = LockProgram::blank();
    lock.declare(2, &[1], &[0], &[Region::Idle, Region::Try, Region::Crit])?;
    lock.set_classes(2)?;
    fill(&mut lock, 0)?;
    fill(&mut lock, 1)?;
    Ok(lock)
}

fn leads(process: u8, from: u8, to: u8, class: Option<u8>) -> Transition {
    Transition {
        process,
        from,
        to,
        class,
    }
}

fn fill(lock: &mut LockProgram, process: u8) -> Result<(), Unfit> {
    let unset = [
        Item::Variable(0),
        Item::Number(0),
        Item::Operator(Operator::Equal),
    ];
    lock.add_command(leads(process, 0, 1, None), &[Item::Number(1)])?;
    lock.add_command(leads(process, 1, 2, Some(process)), &unset)?;
    lock.add_assignment(0, &[Item::Number(1)])?;
    lock.add_command(leads(process, 2, 0, Some(process)), &[Item::Number(1)])?;
    lock.add_assignment(0, &[Item::Number(0)])
}

#[test]
fn steps_of_two_processes(rt: HostRuntime) -> Result<(), Unfit> {
    let lock = two_processes()?;
    assert_eq!(rt; lock.states(), 18);
    assert_eq!(rt; lock.start(), 0);
    assert_eq!(rt; lock.successor(0, 0), Some(2));
    assert_eq!(rt; lock.successor(2, 3), Some(8));
    assert_eq!(rt; lock.successor(8, 4), Some(15));
    assert_eq!(rt; lock.successor(15, 5), Some(2));
    assert_eq!(rt; lock.successor(15, 1), None);
    assert_eq!(rt; lock.class_of(0), None);
    assert_eq!(rt; lock.class_of(4), Some(1));
    assert_eq!(rt; lock.successor(18, 0), None);
    Ok(())
}

// A swap reads the old values, and 3 - 5 is kept as 2 under a maximum of 3.
#[test]
fn right_sides_read_the_old_state(rt: HostRuntime) -> Result<(), Unfit> {
    let mut lock = LockProgram::blank();
    lock.declare(1, &[3, 3], &[1, 2], &[Region::Idle])?;
    lock.add_command(leads(0, 0, 0, None), &[Item::Number(1)])?;
    lock.add_assignment(0, &[Item::Variable(1)])?;
    lock.add_assignment(1, &[Item::Variable(0)])?;
    assert_eq!(rt;
        lock.add_assignment(1, &[Item::Number(0)]),
        Err(Unfit::Assigned)
    );
    lock.add_command(leads(0, 0, 0, None), &[Item::Number(1)])?;
    lock.add_assignment(
        0,
        &[
            Item::Number(3),
            Item::Number(5),
            Item::Operator(Operator::Minus),
        ],
    )?;
    assert_eq!(rt; lock.start(), 9);
    assert_eq!(rt; lock.successor(9, 0), Some(6));
    assert_eq!(rt; lock.successor(9, 1), Some(10));
    Ok(())
}

#[test]
fn what_does_not_fit_is_refused(rt: HostRuntime) -> Result<(), Unfit> {
    let mut lock = LockProgram::blank();
    lock.declare(1, &[255, 255], &[0, 0], &[Region::Idle])?;
    assert_eq!(rt; lock.states(), 65536);
    assert_eq!(rt;
        lock.declare(1, &[255, 255], &[0, 0], &[Region::Idle, Region::Try]),
        Err(Unfit::Declarations)
    );
    assert_eq!(rt;
        lock.declare(9, &[], &[], &[Region::Idle]),
        Err(Unfit::Declarations)
    );
    assert_eq!(rt; lock.set_classes(17), Err(Unfit::Classes));
    assert_eq!(rt;
        lock.add_command(leads(1, 0, 0, None), &[Item::Number(1)]),
        Err(Unfit::Command)
    );
    assert_eq!(rt;
        lock.add_command(leads(0, 0, 0, Some(0)), &[Item::Number(1)]),
        Err(Unfit::Command)
    );
    assert_eq!(rt;
        lock.add_command(leads(0, 0, 0, None), &[Item::Not]),
        Err(Unfit::Expression)
    );
    assert_eq!(rt;
        lock.add_command(leads(0, 0, 0, None), &[Item::Variable(2)]),
        Err(Unfit::Expression)
    );
    assert_eq!(rt;
        lock.add_assignment(0, &[Item::Number(1)]),
        Err(Unfit::Assigned)
    );
    assert_eq!(rt; lock.states(), 65536);
    lock.clear();
    assert_eq!(rt; lock.states(), 1);
    assert_eq!(rt; lock.commands(), 0);
    Ok(())
}
