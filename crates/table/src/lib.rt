//! A lock as a table: the smallest thing that is a system.
#![tactic(auto)]

ghost use Rattle.std.specs.Prelude.{◌≡◌, ℕ, ◌+◌, ◌*◌, ◌<◌, ◌≤◌, Some, None, Decides, nat_lt};
ghost use Rattle.table.specs.Tables.{cell, RightLengths, WellFormed, table_system};
ghost use Rattle.table.specs.Laws.{table_lawful};

mod arrays;
mod shape;

pub use arrays::Table;
pub use shape::Shape;
use system::{Region, System};

// Whether the arrays have one entry for each question.
fn right_lengths(table: &Table) -> bool
    ensures { Decides result (RightLengths table.now.shape table.now.successors.now table.now.classed.now table.now.regions.now) }
{
    let states = table.shape.states as usize;
    table.successors.len() == states * table.shape.commands as usize
        && table.classed.len() == table.shape.commands as usize
        && table.regions.len() == states * table.shape.processes as usize
}

// The entry in a row and a column of a table of so many rows and columns, or `missing`.
fn cell_at<T: Copy>(list: &[T], row: u32, rows: u32, column: u8, columns: u8, missing: T) -> T
    ensures { result ≡ cell list.now row rows column columns missing }
{
    if row >= rows || column >= columns {
        return missing;
    }
    let i = row as usize * columns as usize + column as usize;
    list.get(i).copied().unwrap_or(missing)
}

impl<'a> Table<'a> {
    /// Whether the arrays are well formed: one entry for each question, and no number out of range.
    pub fn is_well_formed(&self) -> bool
        ensures { Decides result (WellFormed self.now.shape self.now.successors.now self.now.classed.now self.now.regions.now) }
    {
        let Shape {
            states,
            classes,
            ..
        } = self.shape;
        right_lengths(self)
            && self.successors.iter().all(|t| t.is_none_or(|t| t < states))
            && self.classed.iter().all(|j| j.is_none_or(|j| j < classes))
    }
}

impl<'a> System for Table<'a> {
    ghost meaning = { λ t. table_system t.shape t.successors.now t.classed.now t.regions.now };

    ghost lawful = { λ t. table_lawful t.shape t.successors.now t.classed.now t.regions.now };

    fn processes(&self) -> u8 {
        self.shape.processes
    }

    fn classes(&self) -> u8 {
        self.shape.classes
    }

    fn commands(&self) -> u8 {
        self.shape.commands
    }

    fn states(&self) -> u32 {
        self.shape.states
    }

    fn start(&self) -> u32 {
        self.shape.start
    }

    fn successor(&self, state: u32, command: u8) -> Option<u32> {
        let t = cell_at(
            self.successors,
            state,
            self.shape.states,
            command,
            self.shape.commands,
            None,
        )?;
        (t < self.shape.states).then_some(t)
    }

    fn class_of(&self, command: u8) -> Option<u8> {
        let j = cell_at(self.classed, 0, 1, command, self.shape.commands, None)?;
        (j < self.shape.classes).then_some(j)
    }

    fn region(&self, state: u32, process: u8) -> Region {
        cell_at(
            self.regions,
            state,
            self.shape.states,
            process,
            self.shape.processes,
            Region::Idle,
        )
    }
}
