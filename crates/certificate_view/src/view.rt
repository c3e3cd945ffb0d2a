ghost use Rattle.std.specs.Prelude.{◌≡◌, ℕ, ◌<◌, ◌≤◌, true, slice_index};
ghost use Rattle.certificate_theory.specs.Reading.{reads_whole};
ghost use Rattle.certificate_theory.specs.Content.{rows_start};

use certificate_theory::Limits;

/// A certificate in the bytes that it was read from. Reading them finds no fault: all fields are whole; the states of
/// each list are the system's and strictly ascend; the classes are the system's. The rows of each process begin, with
/// their count, where `starts` says.
#[derive(Clone, Copy)]
pub struct View<'a> {
    pub bytes: &'a [u8],
    pub limits: Limits,
    pub starts: [usize; 8],
    ghost few: { limits.processes ≤ 8 },
    ghost reads: { reads_whole limits bytes.now ≡ true },
    ghost begins: { (p : ℕ) → p < limits.processes → slice_index starts p ≡ rows_start limits.numbers bytes.now p },
}
