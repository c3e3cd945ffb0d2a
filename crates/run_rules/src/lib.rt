//! Runs as bytes: which bytes are a bad run of a system, and which refusal is right for all others.
#![tactic(auto)]

ghost use Rattle.std.specs.Prelude.{◌≡◌};
ghost use Rattle.run_rules.specs.Reading.{kind_of};
ghost use Rattle.run_rules.specs.Claims.{OneRightRefusal, BadBytesAreNotRefused, BadBytesCondemn};

use run_refusal::RunRefusal;

/// The kinds of bad runs.
#[derive(Clone, Copy, Debug, PartialEq, Eq)]
pub enum Kind {
    Clash,
    Lockout,
}

/// The kind of a kind byte.
impl TryFrom<u8> for Kind {
    type Error = RunRefusal;

    ghost try_from_gives = { λ byte r. r ≡ kind_of byte };

    fn try_from(byte: u8) -> Result<Self, RunRefusal> {
        match byte {
            1 => Ok(Kind::Clash),
            2 => Ok(Kind::Lockout),
            _ => Err(RunRefusal::WrongKind),
        }
    }
}

/// At most one refusal is right for given bytes.
pub fn one_right_refusal()
    ensures { OneRightRefusal }
{}

/// No refusal is right for the bytes of a bad run.
pub fn bad_bytes_are_not_refused()
    ensures { BadBytesAreNotRefused }
{}

/// The bytes of a clash give a run that reaches a clash, those of a lockout a just run that leaves the process of
/// their process byte trying for ever.
pub fn bad_bytes_condemn()
    ensures { BadBytesCondemn }
{}
