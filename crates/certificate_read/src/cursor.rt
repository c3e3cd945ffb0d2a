ghost use Rattle.std.specs.Prelude.{◌≤◌, length};

use super::entry::Entry;
use byte_numbers::number_at;
use certificate_theory::{Limits, Refusal};

// A certificate that is read from the front: the next field begins at `at`.
#[derive(Clone, Copy)]
pub(crate) struct Cursor<'a> {
    pub(crate) bytes: &'a [u8],
    pub(crate) limits: Limits,
    pub(crate) at: usize,
    ghost few: { limits.processes ≤ 8 },
    ghost within: { at ≤ length bytes.now },
}

impl<'a> Cursor<'a> {
    ghost use Rattle.std.specs.Prelude.{◌≡◌, ℕ, ◌+◌, ◌*◌, ◌<◌, ◌∷◌, None, IfOk, OnOk, slice_index};
    ghost use Rattle.byte_numbers.specs.Numbers.{number_at};
    ghost use Rattle.certificate_theory.specs.Fields.{state as state_field, class as class_field, number as number_field, widths, rank_fields, row_tail, entries, list_fields, list_end, row_lists};
    ghost use Rattle.certificate_theory.specs.Reading.{field_fault};
    ghost use Rattle.certificate_theory.specs.Content.{list_start};
    ghost use Rattle.certificate_read.specs.Views.{refusal_in};
    ghost use Rattle.certificate_read.specs.Moves.{Moved, fault_at};

    // A number of four bytes.
    pub(crate) fn number(&mut self) -> Result<u32, Refusal>
        ensures told { refusal_in result ≡ field_fault self.old.limits self.old.bytes.now self.old.at number_field }
        ensures read { IfOk result (λ n. n ≡ number_at self.old.bytes.now self.old.at) }
        ensures moves { OnOk result (Moved self.old self.new (self.old.at + 4)) }
    {
        let n = number_at(self.bytes, self.at).ok_or(Refusal::Length { at: self.at })?;
        self.at += 4;
        Ok(n)
    }

    // A state, above the one before it in its list, if there is one.
    fn state(&mut self, before: Option<u32>) -> Result<u32, Refusal>
        ensures told { refusal_in result ≡ field_fault self.old.limits self.old.bytes.now self.old.at (state_field before) }
        ensures read { IfOk result (λ n. n ≡ number_at self.old.bytes.now self.old.at) }
        ensures moves { OnOk result (Moved self.old self.new (self.old.at + 4)) }
    {
        let at = self.at;
        let state = self.number()?;
        if state < self.limits.states && before.is_none_or(|lower| lower < state) {
            Ok(state)
        } else {
            Err(Refusal::State { at })
        }
    }

    // A class byte.
    pub(crate) fn class(&mut self) -> Result<(), Refusal>
        ensures told { refusal_in result ≡ field_fault self.old.limits self.old.bytes.now self.old.at class_field }
        ensures moves { OnOk result (Moved self.old self.new (self.old.at + 1)) }
    {
        let at = self.at;
        let class = *self.bytes.get(at).ok_or(Refusal::Length { at })?;
        if class >= self.limits.classes {
            return Err(Refusal::Class { at });
        }
        self.at += 1;
        Ok(())
    }

    // The numbers of a rank.
    pub(crate) fn rank(&mut self) -> Result<(), Refusal>
        ensures told { refusal_in result ≡ fault_at self.old (rank_fields self.old.limits.numbers) }
        ensures moves { OnOk result (Moved self.old self.new (self.old.at + 4 * self.old.limits.numbers)) }
    {
        for _j in 0..self.limits.numbers {
            self.number()?;
        }
        Ok(())
    }

    // An entry of a list; its state is told.
    fn entry<E: Entry>(&mut self, before: Option<u32>) -> Result<u32, Refusal>
        ensures told { refusal_in result ≡ fault_at self.old (state_field before ∷ E.tail self.old.limits.numbers) }
        ensures read { IfOk result (λ n. n ≡ number_at self.old.bytes.now self.old.at) }
        ensures moves { OnOk result (Moved self.old self.new (self.old.at + (4 + widths (E.tail self.old.limits.numbers)))) }
    {
        let state = self.state(before)?;
        E::check_tail(self)?;
        Ok(state)
    }

    // The entries of a list, `count` of them.
    fn entries<E: Entry>(&mut self, count: u32) -> Result<(), Refusal>
        ensures told { refusal_in result ≡ fault_at self.old (entries self.old.bytes.now self.old.at (E.tail self.old.limits.numbers) None count) }
        ensures moves { OnOk result (Moved self.old self.new (self.old.at + (4 + widths (E.tail self.old.limits.numbers)) * count)) }
    {
        let mut before = None;
        for _i in 0..count {
            before = Some(self.entry::<E>(before)?);
        }
        Ok(())
    }

    // A list: how many entries it has, and the entries.
    pub(crate) fn list<E: Entry>(&mut self) -> Result<(), Refusal>
        ensures told { refusal_in result ≡ fault_at self.old (list_fields self.old.bytes.now self.old.at (E.tail self.old.limits.numbers)) }
        ensures moves { OnOk result (Moved self.old self.new (list_end self.old.bytes.now self.old.at (4 + widths (E.tail self.old.limits.numbers)))) }
    {
        let count = self.number()?;
        self.entries::<E>(count)
    }
}
