//! Reading a run's fields, from the front; the first fault decides.
ghost use Rattle.std.specs.Prelude.{◌≡◌, ◌+◌, ◌<◌, ◌≤◌, length, if◌then◌else◌, nat_lt, Ok, Err, IfSome, IfOk, OnOk, MatchResult};
ghost use Rattle.run_refusal.specs.declared.RunRefusal.TheVariants.{WrongLength};
ghost use Rattle.run_rules.specs.Reading.{is_step_lem, no_step, byte_at, count_at, is_process_lem, process_at_lem, is_loop_count_lem, loop_count_at_lem, steps_at_lem, fields, read_run_lem};

use byte_numbers::number_at;
use run_refusal::RunRefusal;
use run_rules::Kind;
use system::System;

// Kept as a byte: steps stay in the bytes that they were read from.
/// The byte of the rest step.
pub(crate) const REST: u8 = 255;

/// Whether a run of this kind may be of this process.
fn is_process(process: u8, kind: Kind, processes: u8) -> bool
    ensures { result ≡ is_process_lem processes kind process }
{
    match kind {
        Kind::Clash => process == 0,
        Kind::Lockout => process < processes,
    }
}

/// Whether a run of this kind may have so many loop steps.
fn is_loop_count(count: usize, kind: Kind) -> bool
    ensures { result ≡ is_loop_count_lem kind count }
{
    match kind {
        Kind::Clash => count == 0,
        Kind::Lockout => count > 0,
    }
}

/// Whether the byte is one of a step.
fn is_step(byte: u8, commands: u8) -> bool
    ensures { result ≡ is_step_lem commands byte }
{
    byte == REST || byte < commands
}

/// The index of the first byte that is no step.
fn no_step(steps: &[u8], commands: u8) -> Option<usize>
    ensures same { result ≡ no_step commands 0 steps.now }
    ensures within { IfSome result (λ i. i < length steps.now) }
{
    steps.iter().position(|byte| !is_step(*byte, commands))
}

// Kept beside the cursor of `certificate_read`: its refusals are of another type, and it needs no limits.
/// The bytes of a run, read up to the index `at`.
#[derive(Drop)]
struct Cursor<'a> {
    bytes: &'a [u8],
    at: usize,
    ghost within: { at ≤ length bytes.now },
}

impl<'a> Cursor<'a> {
    /// The next byte.
    fn byte(&mut self) -> Result<u8, RunRefusal>
        ensures read { result ≡ byte_at self.old.bytes.now self.old.at }
        ensures bytes { self.new.bytes ≡ self.old.bytes }
        ensures at { OnOk result (self.new.at ≡ self.old.at + 1) }
    {
        let byte = self
            .bytes
            .get(self.at)
            .ok_or(RunRefusal::WrongLength { at: self.at })?;
        self.at += 1;
        Ok(*byte)
    }

    /// The process byte, which is the second.
    fn process(&mut self, kind: Kind, processes: u8) -> Result<u8, RunRefusal>
        requires { self.old.at ≡ 1 }
        ensures read { result ≡ process_at_lem processes kind self.old.bytes.now }
        ensures bytes { self.new.bytes ≡ self.old.bytes }
        ensures at { OnOk result (self.new.at ≡ 2) }
    {
        let process = self.byte()?;
        if is_process(process, kind, processes) {
            Ok(process)
        } else {
            Err(RunRefusal::WrongProcess)
        }
    }

    /// The next four bytes, a count.
    fn count(&mut self) -> Result<usize, RunRefusal>
        ensures read { result ≡ count_at self.old.bytes.now self.old.at }
        ensures bytes { self.new.bytes ≡ self.old.bytes }
        ensures at { OnOk result (self.new.at ≡ self.old.at + 4) }
    {
        let count = number_at(self.bytes, self.at).ok_or(RunRefusal::WrongLength { at: self.at })?;
        self.at += 4;
        Ok(count as usize)
    }

    /// The next four bytes, the loop count.
    fn loop_count(&mut self, kind: Kind) -> Result<usize, RunRefusal>
        ensures read { result ≡ loop_count_at_lem kind self.old.bytes.now self.old.at }
        ensures bytes { self.new.bytes ≡ self.old.bytes }
        ensures at { OnOk result (self.new.at ≡ self.old.at + 4) }
    {
        let at = self.at;
        let count = self.count()?;
        if is_loop_count(count, kind) {
            Ok(count)
        } else {
            Err(RunRefusal::WrongLoopCount { at })
        }
    }

    /// The next `count` step bytes. A count means nothing until the bytes are there.
    fn steps(&mut self, count: usize, commands: u8) -> Result<&'a [u8], RunRefusal>
        ensures read { MatchResult result (λ steps. Ok steps.now ≡ steps_at_lem commands self.old.bytes.now self.old.at count) (λ e. Err e ≡ steps_at_lem commands self.old.bytes.now self.old.at count) }
        ensures bytes { self.new.bytes ≡ self.old.bytes }
        ensures at { IfOk result (λ steps. (length steps.now ≡ count) × (self.new.at ≡ self.old.at + count)) }
    {
        let rest = &self.bytes[self.at..];
        let steps = &rest[..count.min(rest.len())];
        if let Some(i) = no_step(steps, commands) {
            return Err(RunRefusal::WrongStep { at: self.at + i });
        }
        if steps.len() < count {
            return Err(RunRefusal::WrongLength {
                at: self.bytes.len(),
            });
        }
        self.at += count;
        Ok(steps)
    }

    /// That no bytes are left.
    fn end(&self) -> Result<(), RunRefusal>
        ensures { result ≡ (if nat_lt self.now.at (length self.now.bytes.now) then Err (WrongLength self.now.at) else Ok tt) }
    {
        if self.at < self.bytes.len() {
            Err(RunRefusal::WrongLength { at: self.at })
        } else {
            Ok(())
        }
    }
}

/// A run as it is read: its steps are bytes yet.
#[derive(Clone, Copy)]
pub(crate) struct Run<'a> {
    pub kind: Kind,
    pub process: u8,
    pub stem: &'a [u8],
    pub cycle: &'a [u8],
}

/// The fields of a run's bytes, or the first fault.
pub(crate) fn read_run<'a, S: System>(system: &S, bytes: &'a [u8]) -> Result<Run<'a>, RunRefusal>
    ensures same { MatchResult result (λ run. read_run_lem (S.meaning system.now).steps bytes.now ≡ Ok (fields run.kind run.process run.stem.now run.cycle.now)) (λ e. read_run_lem (S.meaning system.now).steps bytes.now ≡ Err e) }
    ensures fits { IfOk result (λ run. length run.stem.now + length run.cycle.now ≤ length bytes.now) }
{
    let mut cursor = Cursor { bytes, at: 0 };
    let kind = Kind::try_from(cursor.byte()?)?;
    let process = cursor.process(kind, system.processes())?;
    let stem_count = cursor.count()?;
    let stem = cursor.steps(stem_count, system.commands())?;
    let loop_count = cursor.loop_count(kind)?;
    let cycle = cursor.steps(loop_count, system.commands())?;
    cursor.end()?;
    Ok(Run {
        kind,
        process,
        stem,
        cycle,
    })
}
