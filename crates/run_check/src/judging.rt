//! Judging a run that was read: the causes are tried in their order.
ghost use Rattle.std.specs.Prelude.{◌≡◌, ◌+◌, ◌^◌, ◌<◌, length, Ok, Err};
ghost use Rattle.run_rules.specs.Judging.{judged_loop, judged_clash, judged_lockout, run_answer};

use super::part::Part;
use super::reading::{Run, read_run};
use run_refusal::RunRefusal;
use run_rules::Kind;
use system::{System, is_clash};

/// The causes of the loop, which leads back to where it began.
fn judge_loop<S: System>(process: u8, cycle: &Part<S>) -> Result<(), RunRefusal>
    ensures { result ≡ judged_loop (S.meaning cycle.now.system.now) process cycle.now.from cycle.now.steps.now }
{
    if let Some(state) = cycle.idle_at(process) {
        return Err(RunRefusal::NotWaiting { process, state });
    }
    if let Some(class) = cycle.neglected_class() {
        return Err(RunRefusal::ClassNeglected { class });
    }
    Ok(())
}

/// The causes of a clash.
fn judge_clash<S: System>(stem: &Part<S>) -> Result<(), RunRefusal>
    requires { stem.now.from ≡ (S.meaning stem.now.system.now).steps.start }
    ensures { result ≡ judged_clash (S.meaning stem.now.system.now) stem.now.steps.now }
{
    let state = stem.walk(0)?;
    if is_clash(stem.system, state) {
        Ok(())
    } else {
        Err(RunRefusal::NoClash { state })
    }
}

/// The causes of a lockout of the process.
fn judge_lockout<S: System>(process: u8, stem: &Part<S>, cycle: &[u8]) -> Result<(), RunRefusal>
    requires start { stem.now.from ≡ (S.meaning stem.now.system.now).steps.start }
    requires few { length stem.now.steps.now + length cycle.now < 2 ^ 64 }
    ensures { result ≡ judged_lockout (S.meaning stem.now.system.now) process stem.now.steps.now cycle.now }
{
    let head = stem.walk(0)?;
    let cycle = Part {
        system: stem.system,
        from: head,
        steps: cycle,
    };
    let last = cycle.walk(stem.steps.len())?;
    if last == head {
        judge_loop(process, &cycle)
    } else {
        Err(RunRefusal::LoopOpen { state: last })
    }
}

/// The answer, by its computing definition.
pub(crate) fn answer<S: System>(system: &S, bytes: &[u8]) -> Result<(), RunRefusal>
    ensures { result ≡ run_answer (S.meaning system.now) bytes.now }
{
    let Run {
        kind,
        process,
        stem,
        cycle,
    } = read_run(system, bytes)?;
    let stem = Part {
        system,
        from: system.start(),
        steps: stem,
    };
    match kind {
        Kind::Clash => judge_clash(&stem),
        Kind::Lockout => judge_lockout(process, &stem, cycle),
    }
}
