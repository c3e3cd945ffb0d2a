ghost use Rattle.std.specs.Prelude.{◌≡◌, ◌/◌, ◌^◌, ◌<◌, bit_and, bit_or};
ghost use Rattle.system.specs.Masks.{bit, masked};
ghost use Rattle.system.specs.MaskLaws.{masked_lawful};

use super::{Region, System};

/// A system under a mask: the commands whose bits are set are disabled. Bits from the number of commands
/// upward have no effect, and everything else is as in `inner`.
#[derive(Clone, Copy)]
pub struct Mask<S> {
    pub inner: S,
    pub mask: u64,
}

// The bit of the command, for one that has a bit.
fn bit_of(mask: u64, command: u8) -> u64
    requires { command < 64 }
    ensures { result ≡ bit_and (mask / 2 ^ command) 1 }
{
    (mask >> command) & 1
}

// Kept beside the test of a class in a set: a mask of commands has 64 bits, and is a number to those who lay it over a system.
// Whether the bit of the command is set. From 64 upward there is none.
fn is_set(mask: u64, command: u8) -> bool
    ensures { result ≡ bit mask command }
{
    command < 64 && bit_of(mask, command) == 1
}

impl<S: System> System for Mask<S> {
    ghost meaning = { λ m. masked m.mask (S.meaning m.inner) };

    ghost lawful = { λ m. masked_lawful m.mask (S.meaning m.inner) (S.lawful m.inner) };

    fn processes(&self) -> u8 {
        self.inner.processes()
    }

    fn classes(&self) -> u8 {
        self.inner.classes()
    }

    fn commands(&self) -> u8 {
        self.inner.commands()
    }

    fn states(&self) -> u32 {
        self.inner.states()
    }

    fn start(&self) -> u32 {
        self.inner.start()
    }

    fn successor(&self, state: u32, command: u8) -> Option<u32> {
        if is_set(self.mask, command) {
            None
        } else {
            self.inner.successor(state, command)
        }
    }

    fn class_of(&self, command: u8) -> Option<u8> {
        self.inner.class_of(command)
    }

    fn region(&self, state: u32, process: u8) -> Region {
        self.inner.region(state, process)
    }
}

// Two layers over a system.
fn layers<S: System>(inner: S, below: u64, above: u64) -> Mask<Mask<S>>
    ensures { (result.inner.inner ≡ inner) × (result.inner.mask ≡ below) × (result.mask ≡ above) }
{
    Mask {
        inner: Mask { inner, mask: below },
        mask: above,
    }
}

/// The system under two masks, `below` first and `above` over it: it means the system under their union.
pub fn pile<S: System>(inner: S, below: u64, above: u64) -> Mask<Mask<S>>
    ensures held { (result.inner.inner ≡ inner) × (result.inner.mask ≡ below) × (result.mask ≡ above) }
    ensures union { masked result.mask (masked result.inner.mask (S.meaning result.inner.inner)) ≡ masked (bit_or above below) (S.meaning inner) }
{
    layers(inner, below, above)
}
