//! The run checker: whether bytes are a bad run of a system, and why not.
#![tactic(auto)]

ghost use Rattle.std.specs.Prelude.{◌≡◌, Ok, OnOk, MatchResult};
ghost use Rattle.run_rules.specs.Layout.{BadBytes};
ghost use Rattle.run_rules.specs.Causes.{RightRefusal};
ghost use Rattle.run_rules.specs.Claims.{Condemned};
ghost use Rattle.run_rules.specs.Judging.{run_answer};

mod judging;
mod part;
mod reading;

use judging::answer;
use run_refusal::RunRefusal;
use system::System;

/// Whether the bytes are a bad run of the system: accepted exactly then, and otherwise refused by the one right refusal.
/// An accepted clash gives a run that reaches a clash, an accepted lockout a just run that leaves its process trying for
/// ever.
pub fn check_run<S: System>(system: &S, bytes: &[u8]) -> Result<(), RunRefusal>
    ensures right { MatchResult result (λ _. BadBytes (S.meaning system.now) bytes.now) (λ e. RightRefusal (S.meaning system.now) bytes.now e) }
    ensures all { BadBytes (S.meaning system.now) bytes.now → result ≡ Ok tt }
    ensures condemned { OnOk result (Condemned (S.meaning system.now) bytes.now) }
    ensures same { result ≡ run_answer (S.meaning system.now) bytes.now }
{
    answer(system, bytes)
}
