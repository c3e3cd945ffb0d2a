//! Where a reader of texts begins.
ghost use Rattle.expression_reader.specs.Ahead.{scope_of};
ghost use Rattle.expression_reader.specs.Expressions.{Blank, BlankIfRefused, ReadsExpression};

use super::binding::Binding;
use super::reader::{MAX_ITEMS, Reader};
use super::source::Source;
use expression::Item;
use lock_text::{MAX_TEXT, TextRefusal};
use names::NameList;

/// The most levels that an expression may have open at once.
pub const MAX_LEVELS: usize = 8;

impl Reader {
    /// At the start of a text, with no items. Each place for an item holds the number 0.
    pub fn new() -> Reader
        ensures { Blank result }
    {
        Reader {
            at: 0,
            operands: 0,
            counted: 0,
            written: 0,
            items: [Item::Number(0); MAX_ITEMS],
        }
    }

    /// Reads the expression from the reader's place on, where the names are those of the variables, and writes its
    /// items. The reader then stands behind the expression's last token. A refusal leaves it blank.
    pub fn expression(&mut self, text: &[u8], names: &NameList) -> Result<(), TextRefusal>
        ensures reads { ReadsExpression (scope_of names.now) text.now self.old result self.new }
        ensures blank { BlankIfRefused result self.new }
    {
        let answer = self.from_place(text, names);
        if answer.is_err() {
            *self = Reader::new();
        }
        answer
    }

    /// Reads the expression from the reader's place on.
    fn from_place(&mut self, text: &[u8], names: &NameList) -> Result<(), TextRefusal>
        ensures { ReadsExpression (scope_of names.now) text.now self.old result self.new }
    {
        if text.len() > MAX_TEXT {
            return Err(TextRefusal::TooLong);
        }
        if self.at > text.len() {
            return Err(TextRefusal::Unwanted(text.len()));
        }
        self.operands = 0;
        self.parts(Source { text, names }, Binding::Or, MAX_LEVELS)
    }
}
