//! Parts of a run: steps that are taken from a state on.
ghost use Rattle.std.specs.Prelude.{◌≡◌, ℕ, ◌+◌, ◌^◌, ◌<◌, length, not, None};
ghost use Rattle.std.specs.Iterator.{YieldsFirst, item_count};
ghost use Rattle.system.specs.Masks.{bit};
ghost use Rattle.run_rules.specs.Judging.{after, visits, walked, is_try, least_idle, neglected, least};

use super::reading::REST;
use class_set::{ClassSet, enabled_classes};
use run_refusal::RunRefusal;
use system::{System, waits};

/// Where the step leads, if it is possible.
fn step_to<S: System>(system: &S, state: u32, byte: u8) -> Option<u32>
    ensures { result ≡ after (S.meaning system.now).steps state byte }
{
    if byte == REST {
        Some(state)
    } else {
        system.successor(state, byte)
    }
}

/// Whether the process does not wait in the state.
fn is_idle<S: System>(system: &S, process: u8, state: u32) -> bool
    ensures { result ≡ not (is_try ((S.meaning system.now).steps.region state process)) }
{
    !waits(system, process, state)
}

/// Steps of a run, taken from a state on.
#[derive(Drop)]
pub(crate) struct Part<'a, S> {
    pub system: &'a S,
    pub from: u32,
    pub steps: &'a [u8],
}

/// The states that steps are taken in, each with its step. The first step that is not possible is the last.
#[derive(Drop)]
struct Visits<'a, S> {
    system: &'a S,
    state: u32,
    steps: &'a [u8],
}

impl<'a, S: System> Iterator for Visits<'a, S> {
    type Item = (u32, u8);

    ghost next_gives = { YieldsFirst (λ v. visits (S.meaning v.system.now).steps v.state v.steps.now) };

    ghost remaining = { item_count (λ v. visits (S.meaning v.system.now).steps v.state v.steps.now) };

    fn next(&mut self) -> Option<(u32, u8)> {
        let (step, rest) = self.steps.split_first()?;
        let visit = (self.state, *step);
        match step_to(self.system, self.state, *step) {
            Some(next) => {
                self.state = next;
                self.steps = rest;
            }
            None => self.steps = &[],
        }
        Some(visit)
    }
}

impl<'a, S: System> Part<'a, S> {
    /// The states that the steps are taken in.
    fn visits(&self) -> Visits<'a, S>
        ensures { visits (S.meaning result.system.now).steps result.state result.steps.now ≡ visits (S.meaning self.now.system.now).steps self.now.from self.now.steps.now }
    {
        Visits {
            system: self.system,
            state: self.from,
            steps: self.steps,
        }
    }

    /// The state at the end of the steps, the first of which has the index `first`.
    pub(crate) fn walk(&self, first: usize) -> Result<u32, RunRefusal>
        requires { first + length self.now.steps.now < 2 ^ 64 }
        ensures { result ≡ walked (S.meaning self.now.system.now).steps self.now.from first self.now.steps.now }
    {
        let mut state = self.from;
        for (i, step) in self.steps.iter().enumerate() {
            state = step_to(self.system, state, *step).ok_or(RunRefusal::StepDisabled {
                step: first + i,
                command: *step,
            })?;
        }
        Ok(state)
    }

    /// The least state before a step where the process does not wait.
    pub(crate) fn idle_at(&self, process: u8) -> Option<u32>
        ensures { result ≡ least_idle (S.meaning self.now.system.now).steps process None self.now.from self.now.steps.now }
    {
        self.visits()
            .map(|(state, _)| state)
            .filter(|state| is_idle(self.system, process, *state))
            .min()
    }

    /// The classes enabled at each state before a step and taken by no step.
    fn neglected_classes(&self) -> ClassSet
        ensures { (j : ℕ) → j < 16 → bit result.bits j ≡ neglected (S.meaning self.now.system.now) j self.now.from self.now.steps.now }
    {
        let mut owed = ClassSet::all();
        for (state, step) in self.visits() {
            let taken = self.system.class_of(step);
            owed = owed.intersection(enabled_classes(self.system, state).without(taken));
        }
        owed
    }

    /// The least class that is enabled at each state before a step and taken by no step.
    pub(crate) fn neglected_class(&self) -> Option<u8>
        ensures { result ≡ least (λ j. neglected (S.meaning self.now.system.now) j self.now.from self.now.steps.now) 0 (S.meaning self.now.system.now).classes }
    {
        self.neglected_classes().lowest_below(self.system.classes())
    }
}
