ghost use Rattle.std.specs.Prelude.{◌≡◌};
ghost use Rattle.certificate_theory.specs.Content.{limits_of_lem};

use certificate_view::View;
use rank::{Rank, Row};
use std::marker::PhantomData;
use system::System;

// A certificate that was read, with ranks of the kind `R`, and the system that it is judged against.
#[derive(Drop)]
pub(crate) struct Judging<'a, 'b, R: Rank, S: System> {
    pub(crate) system: &'a S,
    pub(crate) view: View<'b>,
    pub(crate) ranks: PhantomData<R>,
    ghost limits: { view.limits ≡ limits_of_lem R.kind (S.meaning system.now) },
}

impl<'a, 'b, R: Rank, S: System> Judging<'a, 'b, R, S> {
    ghost use Rattle.std.specs.Prelude.{Some, None};
    ghost use Rattle.rank.specs.Rows.{with_numbers};
    ghost use Rattle.rank_rule.specs.Certificate.{HasRow};
    ghost use Rattle.certificate_theory.specs.Points.{OnlyRow};
    ghost use Rattle.certificate_view.specs.Held.{certificate_of};

    // The row of the process at the state, if it has one.
    pub(crate) fn row(&self, process: u8, state: u32) -> Option<Row<R>>
        ensures { elim result [ Some row ↦ OnlyRow (certificate_of self.now.view) process state (with_numbers R.value row) | None ↦ ¬ HasRow (certificate_of self.now.view) process state ] }
    {
        self.view.row(process, state)
    }
}
