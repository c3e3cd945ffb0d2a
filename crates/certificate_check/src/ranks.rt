ghost use Rattle.std.specs.Prelude.{◌≡◌, ℕ, Some, None, Decides, slice_index_or};
ghost use Rattle.system.specs.Transitions.{Waits};
ghost use Rattle.rank.specs.Rows.{with_numbers};
ghost use Rattle.rank_rule.specs.Rule.{FallsTo, RanksFallAt};
ghost use Rattle.certificate_theory.specs.Points.{LeastSpot};
ghost use Rattle.certificate_view.specs.Held.{certificate_of};
ghost use Rattle.certificate_check.specs.Commands.{FallsBy, RanksFallBy, LeastCommand};

use super::judging::Judging;
use certificate_theory::Spot;
use rank::{Rank, Row};
use system::{System, waits};

// The successors of the state, by command. Each is asked for once.
fn successors_of<S: System>(system: &S, state: u32) -> [Option<u32>; 64]
    ensures { (k : ℕ) → slice_index_or result k None ≡ (S.meaning system.now).steps.next state k }
{
    let mut successors = [None; 64];
    // Kept by index: the array is fixed memory, and of what `array::from_fn` makes the proof did not get the entries.
    for command in 0..system.commands() {
        successors[command as usize] = system.successor(state, command);
    }
    successors
}

impl<'a, 'b, R: Rank, S: System> Judging<'a, 'b, R, S> {
    // Where the process waits in the state `to`, the rule lets the command lead there from the row.
    fn falls(&self, process: u8, row: &Row<R>, command: u8, to: u32) -> bool
        ensures { Decides result (Waits (S.meaning self.now.system.now).steps process to → FallsTo R.kind (S.meaning self.now.system.now) (certificate_of self.now.view) process (with_numbers R.value row.now) command to) }
    {
        if !waits(self.system, process, to) {
            return true;
        }
        let taken = self.system.class_of(command);
        self.row(process, to)
            .is_some_and(|after| row.falls_to(&after, taken))
    }

    // The least command by which the rule is broken from the row.
    fn row_failure(&self, process: u8, row: &Row<R>, successors: &[Option<u32>; 64]) -> Option<u8>
        ensures { LeastCommand (λ k. FallsBy R.kind (S.meaning self.now.system.now) (certificate_of self.now.view) process (with_numbers R.value row.now) k (slice_index_or successors.now k None)) result }
    {
        for (command, to) in successors.iter().enumerate() {
            let command = command as u8;
            // Kept as a test of its own: tried as `is_some_and` with a closure, and the proof did not close.
            if let Some(to) = *to {
                if !self.falls(process, row, command, to) {
                    return Some(command);
                }
            }
        }
        None
    }

    // The least command by which the rule is broken from the row of the process at the state, if it has one.
    fn process_failure(&self, process: u8, state: u32, successors: &[Option<u32>; 64]) -> Option<u8>
        ensures { LeastCommand (λ k. RanksFallBy R.kind (S.meaning self.now.system.now) (certificate_of self.now.view) process state k (slice_index_or successors.now k None)) result }
    {
        let row = self.row(process, state)?;
        self.row_failure(process, &row, successors)
    }

    // Ranks fall from each row.
    pub(crate) fn rank_failure(&self, state: u32, limit: u8) -> Option<Spot>
        ensures { LeastSpot (λ p k. RanksFallAt R.kind (S.meaning self.now.system.now) (certificate_of self.now.view) p state k) limit result }
    {
        let successors = successors_of(self.system, state);
        for process in 0..limit {
            if let Some(command) = self.process_failure(process, state, &successors) {
                return Some(Spot { process, command });
            }
        }
        None
    }
}
