//! Expressions by their grammar, one function for each kind of part.
ghost use Rattle.expression_grammar.specs.Reading.{atom, factor};
ghost use Rattle.expression_reader.specs.Sources.{ReadsBy, part, parts};

use super::binding::Binding;
use super::reader::Reader;
use super::source::Source;
use super::steps::unwanted;
use expression::Item;
use expression_grammar::Kind;
use lock_text::TextRefusal;

impl Reader {
    /// Parts joined by operators that bind so tightly: those of `or` are an expression, those of `and` a term, and those
    /// of + and - a sum. So many levels are `left` to open.
    #[cycle(parts)]
    pub(crate) fn parts(
        &mut self,
        source: Source,
        binding: Binding,
        left: usize,
    ) -> Result<(), TextRefusal>
        ensures { ReadsBy (parts binding) source.entry left self.old result self.new }
    {
        self.part(source, binding, left)?;
        while let Some(sign) = source.operator_ahead(self.at, binding) {
            self.count(sign)?;
            self.part(source, binding, left)?;
            self.push(Item::Operator(sign.token));
        }
        Ok(())
    }

    /// What stands between two operators that bind so tightly.
    #[cycle(parts)]
    fn part(&mut self, source: Source, binding: Binding, left: usize) -> Result<(), TextRefusal>
        ensures { ReadsBy (part binding) source.entry left self.old result self.new }
    {
        // Kept as a match: the four parts are those of the grammar, and each has a name there.
        match binding {
            Binding::Or => self.parts(source, Binding::And, left),
            Binding::And => self.factor(source, left),
            Binding::Test => self.parts(source, Binding::Plus, left),
            Binding::Plus => self.atom(source, left),
        }
    }

    /// A factor: `not` factor, or a sum, or two sums with a test between.
    #[cycle(parts)]
    fn factor(&mut self, source: Source, left: usize) -> Result<(), TextRefusal>
        ensures { ReadsBy factor source.entry left self.old result self.new }
    {
        let seen = source.look(self.at);
        if seen.token == Kind::Not {
            if left == 0 {
                return Err(TextRefusal::PastLimit(seen.start));
            }
            self.count(seen)?;
            self.factor(source, left - 1)?;
            self.push(Item::Not);
            return Ok(());
        }
        self.part(source, Binding::Test, left)?;
        if let Some(sign) = source.operator_ahead(self.at, Binding::Test) {
            self.count(sign)?;
            self.part(source, Binding::Test, left)?;
            self.push(Item::Operator(sign.token));
        }
        Ok(())
    }

    /// An atom: a number up to 255, a variable, or ( expression ).
    #[cycle(parts)]
    fn atom(&mut self, source: Source, left: usize) -> Result<(), TextRefusal>
        ensures { ReadsBy atom source.entry left self.old result self.new }
    {
        let seen = source.look(self.at);
        match seen.token {
            Kind::Number(value) => self.operand(seen, Item::Number(value)),
            Kind::Variable(number) => self.operand(seen, Item::Variable(number)),
            Kind::Large => Err(TextRefusal::OutOfRange(seen.start)),
            Kind::Unknown => Err(TextRefusal::Unknown(seen.start)),
            Kind::Open => {
                if left == 0 {
                    return Err(TextRefusal::PastLimit(seen.start));
                }
                self.pass(seen);
                self.parts(source, Binding::Or, left - 1)?;
                self.close(source)
            }
            _ => Err(unwanted(seen)),
        }
    }
}
