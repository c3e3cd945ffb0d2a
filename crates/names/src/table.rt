//! Declaring names, and finding them.
ghost use Rattle.std.specs.Prelude.{◌≡◌, ◌<◌, ◌↔◌, [], ◌∷◌, ◌++◌, length, IsOk, OnOk, OnErr};
ghost use Rattle.names.specs.Limits.{max_names};
ghost use Rattle.names.specs.Listed.{listed, index_of};

use super::list::{MAX_NAMES, NameList};

/// A list has 16 names already.
#[derive(Clone, Copy, Debug, PartialEq, Eq)]
pub struct Full;

impl<'a> NameList<'a> {
    /// No names.
    pub fn new() -> NameList<'a>
        ensures { listed result ≡ [] }
    {
        let none: &[u8] = b"";
        NameList {
            names: [none; MAX_NAMES],
            count: 0,
        }
    }

    /// How many names are declared.
    fn len(&self) -> usize
        ensures { result ≡ length (listed self.now) }
    {
        self.count
    }

    /// The number of the name, if it is declared: the first has 0.
    pub fn find(&self, name: &[u8]) -> Option<u8>
        ensures { result ≡ index_of (listed self.now) name.now }
    {
        let names = &self.names[..self.count];
        let place = names.iter().position(|&known| known == name)?;
        Some(place as u8)
    }

    /// Declares one more name, behind the others, unless there are 16 already.
    pub fn declare(&mut self, name: &'a [u8]) -> Result<(), Full>
        ensures told { IsOk result ↔ (length (listed self.old) < max_names) }
        ensures full { OnErr result (listed self.new ≡ listed self.old) }
        ensures added { OnOk result (listed self.new ≡ listed self.old ++ (name.now ∷ [])) }
    {
        if self.len() >= MAX_NAMES {
            return Err(Full);
        }
        self.names[self.count] = name;
        self.count += 1;
        Ok(())
    }
}
