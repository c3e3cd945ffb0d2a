//! Reading a certificate in place.
#![tactic(auto)]

ghost use Rattle.std.specs.Prelude.{◌≡◌, ℕ, ◌<◌, ◌≤◌, IfOk, OnOk, slice_index};
ghost use Rattle.certificate_theory.specs.Fields.{row_lists};
ghost use Rattle.certificate_theory.specs.Reading.{reading_fault};
ghost use Rattle.certificate_theory.specs.Content.{list_start, limits_of_lem};
ghost use Rattle.certificate_read.specs.Views.{refusal_in, Begins, ReadRightly};
ghost use Rattle.certificate_read.specs.Moves.{Moved, fault_at};

mod cursor;
mod entry;

use certificate_theory::{Limits, Refusal};
use cursor::Cursor;
use entry::{RowEntry, StateEntry};
use rank::Rank;
use system::System;

// The rows of all processes; where those of each begin is told.
fn row_lists(cursor: &mut Cursor) -> Result<[usize; 8], Refusal>
    ensures told { refusal_in result ≡ fault_at cursor.old (row_lists cursor.old.limits.numbers cursor.old.bytes.now cursor.old.at cursor.old.limits.processes) }
    ensures begins { IfOk result (λ starts. (p : ℕ) → p < cursor.old.limits.processes → slice_index starts p ≡ list_start cursor.old.limits.numbers cursor.old.bytes.now cursor.old.at p) }
    ensures moves { OnOk result (Moved cursor.old cursor.new (list_start cursor.old.limits.numbers cursor.old.bytes.now cursor.old.at cursor.old.limits.processes)) }
{
    // Kept as an array of 8, with the count in the limits: a judge's call allocates nothing.
    let mut starts = [0; 8];
    for start in starts[..cursor.limits.processes as usize].iter_mut() {
        *start = cursor.at;
        cursor.list::<RowEntry>()?;
    }
    Ok(starts)
}

// The whole certificate, field by field; where the rows of each process begin is told.
fn read_fields(bytes: &[u8], limits: Limits) -> Result<[usize; 8], Refusal>
    requires { limits.processes ≤ 8 }
    ensures told { refusal_in result ≡ reading_fault limits bytes.now }
    ensures begins { Begins limits bytes.now result }
{
    let kind = *bytes.first().ok_or(Refusal::Length { at: 0 })?;
    if kind != limits.kind {
        return Err(Refusal::KindByte);
    }
    let mut cursor = Cursor {
        bytes,
        limits,
        at: 1,
    };
    cursor.list::<StateEntry>()?;
    let starts = row_lists(&mut cursor)?;
    if cursor.at < bytes.len() {
        return Err(Refusal::Length { at: cursor.at });
    }
    Ok(starts)
}

/// What the fields of a certificate with ranks of the kind `R` are measured by.
pub fn limits_of<R: Rank, S: System>(system: &S) -> Limits
    ensures { result ≡ limits_of_lem R.kind (S.meaning system.now) }
{
    Limits {
        kind: R::kind_byte(),
        numbers: R::numbers(),
        processes: system.processes(),
        classes: system.classes(),
        states: system.states(),
    }
}

/// Reads a certificate whose ranks are of the kind `R` against the system, and tells where the rows of each process
/// begin. What is refused is the first fault from the front; another kind byte than that of `R` is one.
pub fn read_certificate<R: Rank, S: System>(system: &S, bytes: &[u8]) -> Result<[usize; 8], Refusal>
    ensures told { ReadRightly (limits_of_lem R.kind (S.meaning system.now)) bytes.now result }
    ensures begins { Begins (limits_of_lem R.kind (S.meaning system.now)) bytes.now result }
{
    read_fields(bytes, limits_of::<R, S>(system))
}
