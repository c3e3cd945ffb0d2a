//! Judging a certificate against a system: accepted exactly when it meets the rank rule.
#![tactic(auto)]

ghost use Rattle.std.specs.Prelude.{◌≡◌, Ok};
ghost use Rattle.system.specs.Justice.{CorrectLock};
ghost use Rattle.certificate_theory.specs.Judging.{HoldsAt, Certifies, Answered, Judged, AcceptedCertificate, CertificateAnswered};
ghost use Rattle.certificate_theory.specs.Points.{LeastSpot, LeastPoint};
ghost use Rattle.certificate_theory.specs.Refusals.{broken};
ghost use Rattle.certificate_view.specs.Held.{certificate_of};

mod clauses;
mod judging;
mod ranks;

use certificate_read::{limits_of, read_certificate};
use certificate_theory::{Clause, Point, Refusal, Spot};
use certificate_view::View;
use judging::Judging;
use rank::{Pair, Rank, Single};
use std::marker::PhantomData;
use system::System;

// The refusal when the clause fails at the point.
fn refusal_of(clause: Clause, point: Point) -> Refusal
    ensures { result ≡ broken clause point.spot.process point.state point.spot.command }
{
    let Point { state, spot } = point;
    let Spot { process, command } = spot;
    match clause {
        Clause::StartListed => Refusal::StartUnlisted { state },
        Clause::NoListedClash => Refusal::ListedClash { state },
        Clause::SuccessorsListed => Refusal::SuccessorUnlisted { state, command },
        Clause::RowsExact => Refusal::RowsDiffer { process, state },
        Clause::ClassesEnabled => Refusal::ClassDisabled { process, state },
        Clause::RanksFall => Refusal::RankRule {
            process,
            state,
            command,
        },
    }
}

impl<'a, 'b, R: Rank, S: System> Judging<'a, 'b, R, S> {
    // The least process below `limit`, then the least command, at which the clause fails in the state.
    // Kept as a match: the clauses are data that the refusals and their order name.
    fn failure_at(&self, clause: Clause, state: u32, limit: u8) -> Option<Spot>
        ensures { LeastSpot (λ p k. HoldsAt R.kind (S.meaning self.now.system.now) (certificate_of self.now.view) clause p state k) limit result }
    {
        match clause {
            Clause::StartListed => self.start_failure(state, limit),
            Clause::NoListedClash => self.clash_failure(state, limit),
            Clause::SuccessorsListed => self.successor_failure(state, limit),
            Clause::RowsExact => self.rows_failure(state, limit),
            Clause::ClassesEnabled => self.class_failure(state, limit),
            Clause::RanksFall => self.rank_failure(state, limit),
        }
    }

    // The least process, then state, then command at which the clause fails. State by state, only processes below the
    // one found so far are looked at.
    fn least_failure(&self, clause: Clause) -> Option<Point>
        ensures { LeastPoint (HoldsAt R.kind (S.meaning self.now.system.now) (certificate_of self.now.view) clause) (S.meaning self.now.system.now).steps.processes (S.meaning self.now.system.now).steps.states result }
    {
        let mut found = None;
        let mut limit = self.system.processes();
        for state in 0..self.system.states() {
            if let Some(spot) = self.failure_at(clause, state, limit) {
                limit = spot.process;
                found = Some(Point { state, spot });
            }
        }
        found
    }

    // The first clause that fails decides.
    fn judge(&self) -> Result<(), Refusal>
        ensures { Judged R.kind (S.meaning self.now.system.now) (certificate_of self.now.view) result }
    {
        let order = [
            Clause::StartListed,
            Clause::NoListedClash,
            Clause::SuccessorsListed,
            Clause::RowsExact,
            Clause::ClassesEnabled,
            Clause::RanksFall,
        ];
        for clause in &order {
            if let Some(point) = self.least_failure(*clause) {
                return Err(refusal_of(*clause, point));
            }
        }
        Ok(())
    }
}

/// Checks a certificate whose ranks are of the kind `R`. It is accepted exactly when the bytes read as a certificate that
/// meets the rule; then no run of the system reaches a clash, and no just run leaves a process trying for ever. Else the
/// one right refusal is told; another kind byte than that of `R` is one.
pub fn check_certificate_of<R: Rank, S: System>(system: &S, bytes: &[u8]) -> Result<(), Refusal>
    ensures answered { Answered R.kind (S.meaning system.now) bytes.now result }
    ensures all { Certifies R.kind (S.meaning system.now) bytes.now → result ≡ Ok tt }
    ensures correct { result ≡ Ok tt → CorrectLock (S.meaning system.now) }
{
    let starts = read_certificate::<R, S>(system, bytes)?;
    let limits = limits_of::<R, S>(system);
    let view = View {
        bytes,
        limits,
        starts,
    };
    let judging = Judging::<R, S> {
        system,
        view,
        ranks: PhantomData,
    };
    judging.judge()
}

/// Checks a certificate whose kind byte says the kind of its ranks: 1 for single numbers, 2 for pairs.
pub fn check_certificate<S: System>(system: &S, bytes: &[u8]) -> Result<(), Refusal>
    ensures answered { CertificateAnswered (S.meaning system.now) bytes.now result }
    ensures all { AcceptedCertificate (S.meaning system.now) bytes.now → result ≡ Ok tt }
    ensures correct { result ≡ Ok tt → CorrectLock (S.meaning system.now) }
{
    // Kept as a match: each kind of rank is a type of its own, so what is called differs in its type.
    match bytes {
        [] => Err(Refusal::Length { at: 0 }),
        [1, ..] => check_certificate_of::<Single, S>(system, bytes),
        [2, ..] => check_certificate_of::<Pair, S>(system, bytes),
        _ => Err(Refusal::KindByte),
    }
}
