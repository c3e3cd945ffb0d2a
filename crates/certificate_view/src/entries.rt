ghost use Rattle.std.specs.Prelude.{◌+◌, ◌*◌, ◌≤◌, length};
ghost use Rattle.certificate_theory.specs.Lists.{Ascends};

use super::number;

// Entries of one width, the first at `at`. Each begins with a state, and the states ascend.
#[derive(Clone, Copy)]
pub(crate) struct Entries<'a> {
    pub(crate) bytes: &'a [u8],
    pub(crate) at: usize,
    pub(crate) width: usize,
    pub(crate) count: usize,
    ghost wide: { 4 ≤ width },
    ghost within: { at + width * count ≤ length bytes.now },
    ghost ascends: { Ascends bytes.now at width count },
}

impl<'a> Entries<'a> {
    ghost use Rattle.std.specs.Prelude.{◌≡◌, ◌<◌};
    ghost use Rattle.certificate_theory.specs.Lists.{state_of, Found};

    // The index at which the entry `i` begins.
    pub(crate) fn place(&self, i: usize) -> usize
        requires { i < self.now.count }
        ensures { result ≡ self.now.at + self.now.width * i }
    {
        self.at + self.width * i
    }

    // The state at the head of the entry `i`.
    fn state(&self, i: usize) -> u32
        requires { i < self.now.count }
        ensures { result ≡ state_of self.now.bytes.now self.now.at self.now.width i }
    {
        number(self.bytes, self.place(i))
    }

    // The entry of a state, by halving.
    // Kept by hand: the entries stand in bytes at a stride, so there is no slice of them for `binary_search_by`.
    pub(crate) fn find(&self, wanted: u32) -> Option<usize>
        ensures { Found self.now.bytes.now self.now.at self.now.width self.now.count wanted result }
    {
        let mut low = 0;
        let mut high = self.count;
        while low < high {
            let middle = low + (high - low) / 2;
            let state = self.state(middle);
            if state == wanted {
                return Some(middle);
            }
            if state < wanted {
                low = middle + 1;
            } else {
                high = middle;
            }
        }
        None
    }
}
