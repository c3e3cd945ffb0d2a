ghost use Rattle.std.specs.Prelude.{◌≡◌, ℕ, ◌+◌, List, [], OnOk};
ghost use Rattle.certificate_theory.specs.Fields.{Field, widths, row_tail};
ghost use Rattle.certificate_read.specs.Views.{refusal_in};
ghost use Rattle.certificate_read.specs.Moves.{Moved, fault_at};

use super::cursor::Cursor;
use certificate_theory::Refusal;

// A kind of entry in a list, by the fields behind its state.
pub(crate) trait Entry {
    // The fields behind the state, where a rank has so many numbers.
    ghost tail: { ℕ → List Field };

    // Reads the fields behind the state.
    fn check_tail(cursor: &mut Cursor) -> Result<(), Refusal>
        ensures told { refusal_in result ≡ fault_at cursor.old (tail cursor.old.limits.numbers) }
        ensures moves { OnOk result (Moved cursor.old cursor.new (cursor.old.at + widths (tail cursor.old.limits.numbers))) };
}

// A state alone, as in the state list.
pub(crate) struct StateEntry;

// A row: a state, a class and a rank.
pub(crate) struct RowEntry;

impl Entry for StateEntry {
    ghost tail = { λ n. [] };

    fn check_tail(_cursor: &mut Cursor) -> Result<(), Refusal> {
        Ok(())
    }
}

impl Entry for RowEntry {
    ghost tail = { row_tail };

    fn check_tail(cursor: &mut Cursor) -> Result<(), Refusal> {
        cursor.class()?;
        cursor.rank()
    }
}
