//! Sets of justice classes, of which a system has sixteen at most, and the classes that are enabled at a state.
#![tactic(auto)]

ghost use Rattle.std.specs.Prelude.{◌≡◌, ℕ, ◌<◌, ◌^◌, true, false, not, ◌&&◌, ◌||◌, ◌==◌, Decides, nat_lt};
ghost use Rattle.std.specs.Int.Bits.{bit_or, bit_xor};
ghost use Rattle.system.specs.Masks.{bit};
ghost use Rattle.system.specs.Justice.{ClassEnabled};
ghost use Rattle.system.specs.Tests.{is_class, class_enabled_lem};
ghost use Rattle.class_set.specs.Sets.{IsLowest};

use system::System;

/// A set of classes below 16: the class j is in it when bit j is one.
#[derive(Clone, Copy, Debug, PartialEq, Eq)]
pub struct ClassSet {
    pub bits: u16,
    ghost sixteen: { bits < 2 ^ 16 },
}

/// The bit of the class, if there is one below 16.
fn mask_of(class: Option<u8>) -> u16
    ensures told { (j : ℕ) → bit result j ≡ (is_class class j && nat_lt j 16) }
    ensures sixteen { result < 2 ^ 16 }
{
    match class {
        Some(class) if class < 16 => 1u16 << class,
        _ => 0,
    }
}

impl ClassSet {
    /// No class.
    pub fn none() -> ClassSet
        ensures classes { (j : ℕ) → bit result.bits j ≡ false }
        ensures bits { result.bits ≡ 0 }
    {
        ClassSet { bits: 0 }
    }

    /// All sixteen.
    pub fn all() -> ClassSet
        ensures { (j : ℕ) → bit result.bits j ≡ nat_lt j 16 }
    {
        ClassSet { bits: 0xFFFF }
    }

    /// Whether the class is in the set.
    pub fn contains(self, class: u8) -> bool
        ensures { result ≡ bit self.bits class }
    {
        class < 16 && (self.bits >> class) & 1 == 1
    }

    /// The set with the class, if there is one below 16.
    pub fn with(self, class: Option<u8>) -> ClassSet
        ensures { (j : ℕ) → bit result.bits j ≡ (bit self.bits j || (is_class class j && nat_lt j 16)) }
    {
        ClassSet {
            bits: self.bits | mask_of(class),
        }
    }

    /// The set with the class, which is below 16.
    fn put(self, class: u8) -> ClassSet
        requires { class < 16 }
        ensures { (j : ℕ) → bit result.bits j ≡ (bit self.bits j || class == j) }
    {
        ClassSet {
            bits: self.bits | 1u16 << class,
        }
    }

    /// The set without the class, if there is one.
    pub fn without(self, class: Option<u8>) -> ClassSet
        ensures { (j : ℕ) → bit result.bits j ≡ (bit self.bits j && not (is_class class j)) }
    {
        ClassSet {
            bits: self.bits & (mask_of(class) ^ 0xFFFF),
        }
    }

    /// The classes in either set.
    pub fn union(self, other: ClassSet) -> ClassSet
        ensures classes { (j : ℕ) → bit result.bits j ≡ (bit self.bits j || bit other.bits j) }
        ensures bits { result.bits ≡ bit_or self.bits other.bits }
    {
        ClassSet {
            bits: self.bits | other.bits,
        }
    }

    /// The classes in both sets.
    pub fn intersection(self, other: ClassSet) -> ClassSet
        ensures { (j : ℕ) → bit result.bits j ≡ (bit self.bits j && bit other.bits j) }
    {
        ClassSet {
            bits: self.bits & other.bits,
        }
    }

    /// The classes below 16 that are not in the set.
    pub fn complement(self) -> ClassSet
        ensures classes { (j : ℕ) → bit result.bits j ≡ (nat_lt j 16 && not (bit self.bits j)) }
        ensures bits { result.bits ≡ bit_xor self.bits 65535 }
    {
        ClassSet {
            bits: self.bits ^ 0xFFFF,
        }
    }

    /// The lowest class of the set that is below the limit.
    pub fn lowest_below(self, limit: u8) -> Option<u8>
        ensures { IsLowest (bit self.bits) limit result }
    {
        for class in 0..limit {
            if self.contains(class) {
                return Some(class);
            }
        }
        None
    }
}

/// The classes that are enabled at the state. Each successor is asked for once.
pub fn enabled_classes<S: System>(system: &S, state: u32) -> ClassSet
    ensures told { (j : ℕ) → bit result.bits j ≡ class_enabled_lem (S.meaning system.now) state j }
    ensures decides { (j : ℕ) → Decides (bit result.bits j) (ClassEnabled (S.meaning system.now) state j) }
{
    let mut enabled = ClassSet::none();
    for command in 0..system.commands() {
        // Kept as tests of their own: `with` for an Option puts something in for each command, which costs this loop half as much again.
        if system.successor(state, command).is_some() {
            if let Some(class) = system.class_of(command) {
                enabled = enabled.put(class);
            }
        }
    }
    enabled
}
