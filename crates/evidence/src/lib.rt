//! A certificate and a bad run against one system.
#![tactic(auto)]

ghost use Rattle.std.specs.Prelude.{◌≡◌, Ok, ◌≢◌};
ghost use Rattle.certificate_theory.specs.Judging.{CertificateAnswered};
ghost use Rattle.run_rules.specs.Judging.{run_answer};

use certificate_check::check_certificate;
use certificate_theory::Refusal;
use run_check::check_run;
use run_refusal::RunRefusal;
use system::System;

/// The answers to a certificate and to a run.
pub struct Answers {
    pub certificate: Result<(), Refusal>,
    pub run: Result<(), RunRefusal>,
}

/// Checks a certificate and a run against one system, each as its own checker does. They are never both accepted.
pub fn check_both<S: System>(system: &S, certificate: &[u8], run: &[u8]) -> Answers
    ensures certified { CertificateAnswered (S.meaning system.now) certificate.now result.certificate }
    ensures charged { result.run ≡ run_answer (S.meaning system.now) run.now }
    ensures never_both { result.certificate ≡ Ok tt → result.run ≢ Ok tt }
{
    Answers {
        certificate: check_certificate(system, certificate),
        run: check_run(system, run),
    }
}
