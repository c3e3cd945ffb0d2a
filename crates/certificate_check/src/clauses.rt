ghost use Rattle.std.specs.Prelude.{◌≡◌, ℕ, Some, Decides};
ghost use Rattle.system.specs.Masks.{bit};
ghost use Rattle.system.specs.Justice.{ClassEnabled};
ghost use Rattle.rank_rule.specs.Certificate.{Listed};
ghost use Rattle.rank_rule.specs.Rule.{NoListedClashAt, SuccessorsListedAt, RowsExactAt, ClassesEnabledAt};
ghost use Rattle.certificate_theory.specs.Points.{LeastSpot};
ghost use Rattle.certificate_view.specs.Held.{certificate_of};

use super::judging::Judging;
use certificate_theory::Spot;
use class_set::{ClassSet, enabled_classes};
use rank::Rank;
use system::{System, is_clash, waits};

// The spot of a clause that speaks of no process and no command.
const FIRST: Spot = Spot {
    process: 0,
    command: 0,
};

impl<'a, 'b, R: Rank, S: System> Judging<'a, 'b, R, S> {
    // The start is in the state list.
    pub(crate) fn start_failure(&self, state: u32, limit: u8) -> Option<Spot>
        ensures { LeastSpot (λ p k. state ≡ (S.meaning self.now.system.now).steps.start → Listed (certificate_of self.now.view) state) limit result }
    {
        if limit > 0 && state == self.system.start() && !self.view.is_listed(state) {
            Some(FIRST)
        } else {
            None
        }
    }

    // A listed state is no clash.
    pub(crate) fn clash_failure(&self, state: u32, limit: u8) -> Option<Spot>
        ensures { LeastSpot (λ p k. NoListedClashAt (S.meaning self.now.system.now) (certificate_of self.now.view) state) limit result }
    {
        if limit > 0 && self.view.is_listed(state) && is_clash(self.system, state) {
            Some(FIRST)
        } else {
            None
        }
    }

    // The successors of a listed state are listed.
    pub(crate) fn successor_failure(&self, state: u32, limit: u8) -> Option<Spot>
        ensures { LeastSpot (λ p k. SuccessorsListedAt (S.meaning self.now.system.now) (certificate_of self.now.view) state k) limit result }
    {
        if limit == 0 || !self.view.is_listed(state) {
            return None;
        }
        for command in 0..self.system.commands() {
            // Kept as a test of its own: tried as `is_none_or` with a closure, whose answer the proof did not get.
            if let Some(to) = self.system.successor(state, command) {
                if !self.view.is_listed(to) {
                    return Some(Spot {
                        process: 0,
                        command,
                    });
                }
            }
        }
        None
    }

    // The process has a row at the state exactly when the state is listed and the process waits there.
    fn row_is_exact(&self, process: u8, state: u32) -> bool
        ensures { Decides result (RowsExactAt (S.meaning self.now.system.now) (certificate_of self.now.view) process state) }
    {
        let wanted = self.view.is_listed(state) && waits(self.system, process, state);
        self.view.has_row(process, state) == wanted
    }

    // The rows are the listed states where their process waits.
    // Kept beside `class_failure`, which has another test: the proof does not get what a closure over the view answers.
    pub(crate) fn rows_failure(&self, state: u32, limit: u8) -> Option<Spot>
        ensures { LeastSpot (λ p k. RowsExactAt (S.meaning self.now.system.now) (certificate_of self.now.view) p state) limit result }
    {
        for process in 0..limit {
            if !self.row_is_exact(process, state) {
                return Some(Spot {
                    process,
                    command: 0,
                });
            }
        }
        None
    }

    // The class of the process's row at the state, if it has one, is enabled there.
    fn class_is_enabled(&self, process: u8, state: u32, enabled: ClassSet) -> bool
        requires { (j : ℕ) → Decides (bit enabled.bits j) (ClassEnabled (S.meaning self.now.system.now) state j) }
        ensures { Decides result (ClassesEnabledAt (S.meaning self.now.system.now) (certificate_of self.now.view) process state) }
    {
        self.row(process, state)
            .is_none_or(|row| enabled.contains(row.class))
    }

    // The class of each row is enabled at its state.
    pub(crate) fn class_failure(&self, state: u32, limit: u8) -> Option<Spot>
        ensures { LeastSpot (λ p k. ClassesEnabledAt (S.meaning self.now.system.now) (certificate_of self.now.view) p state) limit result }
    {
        let enabled = enabled_classes(self.system, state);
        for process in 0..limit {
            if !self.class_is_enabled(process, state, enabled) {
                return Some(Spot {
                    process,
                    command: 0,
                });
            }
        }
        None
    }
}
