ghost use Rattle.std.specs.Prelude.{◌≡◌, Some, Decides};
ghost use Rattle.system.specs.Transitions.{Clash, Holds, Waits, holder_mask_lem};
ghost use Rattle.system.specs.Justice.{ClassEnabled};
ghost use Rattle.system.specs.Tests.{is_class, enables, class_enabled_lem, is_clash_lem};

use super::{Region, System};

/// Whether the command is of the class.
pub fn has_class<S: System>(system: &S, command: u8, class: u8) -> bool
    ensures told { result ≡ is_class ((S.meaning system.now).class command) class }
    ensures decides { Decides result ((S.meaning system.now).class command ≡ Some class) }
{
    system.class_of(command) == Some(class)
}

// Whether the command is enabled at the state, and of the class.
fn helps<S: System>(system: &S, state: u32, class: u8, command: u8) -> bool
    ensures { result ≡ enables (S.meaning system.now) state class command }
{
    system.successor(state, command).is_some() && has_class(system, command, class)
}

/// Whether the class is enabled at the state: some command of it is.
pub fn class_enabled<S: System>(system: &S, state: u32, class: u8) -> bool
    ensures told { result ≡ class_enabled_lem (S.meaning system.now) state class }
    ensures decides { Decides result (ClassEnabled (S.meaning system.now) state class) }
{
    for k in 0..system.commands() {
        if helps(system, state, class, k) {
            return true;
        }
    }
    false
}

/// Whether the process waits in the state.
pub fn waits<S: System>(system: &S, process: u8, state: u32) -> bool
    ensures { Decides result (Waits (S.meaning system.now).steps process state) }
{
    system.region(state, process) == Region::Try
}

// Whether the process is in region crit.
fn holds<S: System>(system: &S, process: u8, state: u32) -> bool
    ensures { Decides result (Holds (S.meaning system.now).steps process state) }
{
    system.region(state, process) == Region::Crit
}

/// The mask of the holders: bit p is one when the process p is in region crit.
pub fn holder_mask<S: System>(system: &S, state: u32) -> u8
    ensures { result ≡ holder_mask_lem (S.meaning system.now).steps state }
{
    let mut mask = 0u8;
    for p in 0..system.processes() {
        if holds(system, p, state) {
            mask |= 1u8 << p;
        }
    }
    mask
}

/// Whether the state is a clash: its holder mask has two or more ones.
pub fn is_clash<S: System>(system: &S, state: u32) -> bool
    ensures told { result ≡ is_clash_lem (S.meaning system.now).steps state }
    ensures decides { Decides result (Clash (S.meaning system.now).steps state) }
{
    holder_mask(system, state).count_ones() >= 2
}
