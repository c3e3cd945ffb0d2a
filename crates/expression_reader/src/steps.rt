//! The steps that the reading is made of.
ghost use Rattle.std.specs.Prelude.{◌≡◌, ◌<◌};
ghost use Rattle.expression_reader.specs.Ahead.{scope_of};
ghost use Rattle.expression_reader.specs.State.{UnwantedAt, Counts, Passed, Pushed, OperandRead, Closes};

use super::reader::{MAX_ITEMS, Reader};
use super::source::Source;
use expression::Item;
use expression_grammar::Kind;
use lock_text::{Placed, TextRefusal};

/// The most numbers and variables of an expression.
pub const MAX_OPERANDS: usize = 32;

/// The refusal of a token that is not wanted.
pub(crate) fn unwanted(seen: Placed<Kind>) -> TextRefusal
    ensures { UnwantedAt seen result }
{
    match seen.token {
        Kind::Misspelt => TextRefusal::Spelling(seen.start),
        _ => TextRefusal::Unwanted(seen.start),
    }
}

impl Reader {
    /// One token further.
    pub(crate) fn pass(&mut self, seen: Placed<Kind>)
        ensures { Passed self.old seen.end self.new }
    {
        self.at = seen.end;
    }

    /// One token further, with one item more, if the text may have it.
    pub(crate) fn count<T: Copy>(&mut self, seen: Placed<T>) -> Result<(), TextRefusal>
        ensures { Counts self.old seen.start seen.end result self.new }
    {
        if self.counted >= MAX_ITEMS {
            return Err(TextRefusal::PastLimit(seen.start));
        }
        self.counted += 1;
        self.at = seen.end;
        Ok(())
    }

    /// Writes one item.
    pub(crate) fn push(&mut self, item: Item)
        requires { self.old.written < self.old.counted }
        ensures { Pushed self.old item self.new }
    {
        self.items[self.written] = item;
        self.written += 1;
    }

    /// A number or a variable, if the expression and the text may have one more.
    pub(crate) fn operand(&mut self, seen: Placed<Kind>, item: Item) -> Result<(), TextRefusal>
        ensures { OperandRead self.old seen item result self.new }
    {
        if self.operands >= MAX_OPERANDS {
            return Err(TextRefusal::PastLimit(seen.start));
        }
        self.count(seen)?;
        self.operands += 1;
        self.push(item);
        Ok(())
    }

    /// The ) that is wanted here.
    pub(crate) fn close(&mut self, source: Source) -> Result<(), TextRefusal>
        ensures { Closes (scope_of source.entry.names.now) source.entry.text.now self.old result self.new }
    {
        let seen = source.look(self.at);
        if seen.token != Kind::Close {
            return Err(unwanted(seen));
        }
        self.pass(seen);
        Ok(())
    }
}
