//! The next token, as an expression sees it.
ghost use Rattle.std.specs.Prelude.{◌≡◌, ◌≤◌, length};
ghost use Rattle.lock_text.specs.Tokens.{content, max_text};
ghost use Rattle.expression_grammar.specs.Kinds.{kind};
ghost use Rattle.expression_reader.specs.Ahead.{scope_of, Looked};
ghost use Rattle.expression_reader.specs.State.{JoinsAt};

use super::binding::Binding;
use super::number::byte_value;
use super::source::Source;
use expression::Operator;
use expression_grammar::Kind;
use lock_text::{Placed, Token, next_token};

impl Source<'_> {
    /// What a token is to an expression.
    fn kind(self, token: Token) -> Kind
        ensures { result ≡ kind (scope_of self.entry.names.now) (content token.entry) }
    {
        match token {
            Token::Name(name) => self.names.find(name).map_or(Kind::Unknown, Kind::Variable),
            Token::Number(digits) => byte_value(digits).map_or(Kind::Large, Kind::Number),
            Token::Word(word) => Kind::from(word),
            Token::Mark(mark) => Kind::from(mark),
        }
    }

    /// What stands ahead in the text: what it is to an expression, where it begins, and where a token ends.
    pub(crate) fn look(self, at: usize) -> Placed<Kind>
        ensures { Looked (scope_of self.entry.names.now) self.entry.text.now at result }
    {
        match next_token(self.text, at) {
            Ok(Some(found)) => Placed {
                token: self.kind(found.token),
                start: found.start,
                end: found.end,
            },
            Ok(None) => Placed {
                token: Kind::Other,
                start: at.max(self.text.len()),
                end: at,
            },
            Err(refusal) => Placed {
                token: Kind::Misspelt,
                start: refusal.index(),
                end: at,
            },
        }
    }

    /// The operator that binds so tightly and stands ahead, if one does.
    pub(crate) fn operator_ahead(self, at: usize, binding: Binding) -> Option<Placed<Operator>>
        ensures { JoinsAt (scope_of self.entry.names.now) self.entry.text.now at binding result }
    {
        let Placed { token, start, end } = self.look(at);
        match token {
            Kind::Operator(token) if Binding::from(token) == binding => {
                Some(Placed { token, start, end })
            }
            _ => None,
        }
    }
}
