//! A certificate that was read, in its bytes: which states it lists, and which rows it has. A state is found by halving.
#![tactic(auto)]

ghost use Rattle.std.specs.Prelude.{◌≡◌, ℕ, ◌+◌, ◌*◌, ◌<◌, ◌≤◌, true, length, Some, None, Decides};
ghost use Rattle.byte_numbers.specs.Numbers.{number_at};
ghost use Rattle.rank.specs.Rows.{with_numbers};
ghost use Rattle.rank_rule.specs.Certificate.{Listed, HasRow};
ghost use Rattle.certificate_theory.specs.Points.{OnlyRow};
ghost use Rattle.certificate_view.specs.Held.{certificate_of, RowPlace};

mod entries;
mod view;

use byte_numbers::number_at;
use entries::Entries;
use rank::{Rank, Row};
pub use view::View;

// The number from `at` on, which is there.
pub(crate) fn number(bytes: &[u8], at: usize) -> u32
    requires { at + 4 ≤ length bytes.now }
    ensures { result ≡ number_at bytes.now at }
{
    number_at(bytes, at).unwrap()
}

impl<'a> View<'a> {
    /// Whether the state list has the state.
    pub fn is_listed(&self, state: u32) -> bool
        ensures { Decides result (Listed (certificate_of self.now) state) }
    {
        let listed = Entries {
            bytes: self.bytes,
            at: 5,
            width: 4,
            count: number(self.bytes, 1) as usize,
        };
        listed.find(state).is_some()
    }

    // The index at which the row of the process at the state begins.
    fn row_place(&self, process: u8, state: u32) -> Option<usize>
        ensures { RowPlace self.now process state result }
    {
        if process >= self.limits.processes {
            return None;
        }
        let at = self.starts[process as usize];
        let rows = Entries {
            bytes: self.bytes,
            at: at + 4,
            width: 5 + 4 * self.limits.numbers as usize,
            count: number(self.bytes, at) as usize,
        };
        let i = rows.find(state)?;
        Some(rows.place(i))
    }

    /// Whether the process has a row at the state.
    pub fn has_row(&self, process: u8, state: u32) -> bool
        ensures { Decides result (HasRow (certificate_of self.now) process state) }
    {
        self.row_place(process, state).is_some()
    }

    /// The row of the process at the state, if it has one, where the certificate's ranks are of the kind `R`.
    pub fn row<R: Rank>(&self, process: u8, state: u32) -> Option<Row<R>>
        ensures { self.now.limits.numbers ≡ R.kind.numbers → elim result [ Some row ↦ OnlyRow (certificate_of self.now) process state (with_numbers R.value row) | None ↦ ¬ HasRow (certificate_of self.now) process state ] }
    {
        let at = self.row_place(process, state)?;
        let rank = R::read(self.bytes, at + 5)?;
        Some(Row {
            state,
            class: self.bytes[at + 4],
            rank,
        })
    }
}
