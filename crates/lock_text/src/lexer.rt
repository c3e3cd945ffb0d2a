//! The lexer: the next token of a text, from any place.
ghost use Rattle.std.specs.Prelude.{◌≡◌, ◌<◌, true, false, length, Some, None, ◌==◌, ◌≢◌, slice_index};
ghost use Rattle.lock_text.specs.Lexing.{in_run, longest_mark, BeginsMark, RunTo, TokenFrom, Lexes, CountsTokens};
ghost use Rattle.lock_text.specs.Characters.{is_letter, is_digit};
ghost use Rattle.lock_text.specs.Spelling.{word_spelling};
ghost use Rattle.lock_text.specs.Tokens.{TokensAreOne, FirstFaultIsOne, NoFaultAmongTokens};

use super::refusal::TextRefusal;
use super::token::{Mark, Placed, Token, Word};

/// The most bytes of a lock text.
pub const MAX_TEXT: usize = 16384;

/// The most bytes of a name.
const MAX_NAME: usize = 16;

/// The most digits of a number.
const MAX_DIGITS: usize = 5;

// Kept as an enum: the definitions name the three runs.
/// Bytes that stand together.
#[derive(Clone, Copy)]
pub(crate) enum Run {
    Blanks,
    Digits,
    Name,
}

/// Whether the byte belongs to such a run.
fn belongs(run: Run, byte: u8) -> bool
    ensures { result ≡ in_run run byte }
{
    match byte as char {
        ' ' | '\t' | '\n' | '\r' => matches!(run, Run::Blanks),
        '0'..='9' => matches!(run, Run::Digits | Run::Name),
        'a'..='z' | 'A'..='Z' | '_' => matches!(run, Run::Name),
        _ => false,
    }
}

/// Where the run that begins at `from` ends.
pub(crate) fn run_end(text: &[u8], from: usize, run: Run) -> usize
    ensures { RunTo (in_run run) text.now from result }
{
    let rest = &text[from.min(text.len())..];
    let passing = rest.iter().take_while(|&&byte| belongs(run, byte)).count();
    from + passing
}

/// The longest mark that begins with the byte; `followed` says whether `=` stands behind it.
pub(crate) fn mark_of(byte: u8, followed: bool) -> Option<Mark>
    ensures same { result ≡ longest_mark byte followed }
    ensures begins { elim result [ Some m ↦ BeginsMark byte followed m | None ↦ Unit {0} ] }
{
    match byte as char {
        '(' => Some(Mark::Open),
        ')' => Some(Mark::Close),
        '+' => Some(Mark::Plus),
        '-' => Some(Mark::Minus),
        '=' if followed => Some(Mark::Equal),
        '=' => Some(Mark::Assign),
        '!' if followed => Some(Mark::NotEqual),
        '<' if followed => Some(Mark::LessEqual),
        '<' => Some(Mark::Less),
        ':' => Some(Mark::Colon),
        ';' => Some(Mark::Semicolon),
        ',' => Some(Mark::Comma),
        _ => None,
    }
}

/// The reserved word with these bytes, if there is one.
pub(crate) fn reserved(bytes: &[u8]) -> Option<Word>
    ensures { elim result [ Some k ↦ bytes.now ≡ word_spelling k | None ↦ ((k : Word) → bytes.now ≢ word_spelling k) ] }
{
    match bytes {
        b"procs" => Some(Word::Procs),
        b"vars" => Some(Word::Vars),
        b"locs" => Some(Word::Locs),
        b"classes" => Some(Word::Classes),
        b"cmds" => Some(Word::Cmds),
        b"idle" => Some(Word::Idle),
        b"try" => Some(Word::Try),
        b"crit" => Some(Word::Crit),
        b"exit" => Some(Word::Exit),
        b"none" => Some(Word::None),
        b"and" => Some(Word::And),
        b"or" => Some(Word::Or),
        b"not" => Some(Word::Not),
        _ => None,
    }
}

/// Whether `=` stands at the place.
fn equals_at(text: &[u8], at: usize) -> bool
    ensures { result ≡ (slice_index text.now at == 0x3d) }
{
    text.get(at) == Some(&b'=')
}

/// A byte of a text where a token may begin.
#[derive(Clone, Copy)]
struct Beginning<'a> {
    text: &'a [u8],
    start: usize,
    ghost inside: { start < length text.now },
}

impl<'a> Beginning<'a> {
    /// The name or reserved word that begins with the letter here.
    fn name(self) -> Option<Placed<Token<'a>>>
        requires { is_letter (slice_index self.text.now self.start) ≡ true }
        ensures { TokenFrom self.entry.text.now self.entry.start result }
    {
        let Beginning { text, start } = self;
        let end = run_end(text, start, Run::Name);
        if end - start > MAX_NAME {
            return None;
        }
        let bytes = &text[start..end];
        // Kept as a match: a function that is passed on and answers a `Token`, which has a lifetime, gets no proof.
        let token = match reserved(bytes) {
            Some(word) => Token::Word(word),
            None => Token::Name(bytes),
        };
        Some(Placed { token, start, end })
    }

    /// The number that begins with the digit here.
    #[tactic(auto, using(crate::proofs::Shapes::number_ends, crate::proofs::Shapes::number_token, crate::proofs::Shapes::long_number, crate::proofs::Shapes::ends_none))]
    fn number(self) -> Option<Placed<Token<'a>>>
        requires { is_digit (slice_index self.text.now self.start) ≡ true }
        ensures { TokenFrom self.entry.text.now self.entry.start result }
    {
        let Beginning { text, start } = self;
        let end = run_end(text, start, Run::Digits);
        if end - start > MAX_DIGITS {
            return None;
        }
        let token = Token::Number(&text[start..end]);
        Some(Placed { token, start, end })
    }

    /// The mark here, where no letter and no digit stands.
    #[tactic(auto, using(crate::proofs::Marks::no_mark))]
    fn mark(self) -> Option<Placed<Token<'a>>>
        requires no_letter { is_letter (slice_index self.text.now self.start) ≡ false }
        requires no_digit { is_digit (slice_index self.text.now self.start) ≡ false }
        ensures { TokenFrom self.entry.text.now self.entry.start result }
    {
        let Beginning { text, start } = self;
        let mark = mark_of(text[start], equals_at(text, start + 1))?;
        let token = Token::Mark(mark);
        let end = start + mark.width();
        Some(Placed { token, start, end })
    }

    /// The token here.
    fn token(self) -> Option<Placed<Token<'a>>>
        ensures { TokenFrom self.entry.text.now self.entry.start result }
    {
        match self.text[self.start] as char {
            'a'..='z' | 'A'..='Z' => self.name(),
            '0'..='9' => self.number(),
            _ => self.mark(),
        }
    }
}

/// The next token from a place on. There is none where only blanks are left, or nothing.
pub fn next_token<'a>(text: &'a [u8], from: usize) -> Result<Option<Placed<Token<'a>>>, TextRefusal>
    ensures { Lexes text.now from result }
{
    if text.len() > MAX_TEXT {
        return Err(TextRefusal::TooLong);
    }
    let start = run_end(text, from, Run::Blanks);
    if start >= text.len() {
        return Ok(None);
    }
    let token = Beginning { text, start }.token();
    Ok(Some(token.ok_or(TextRefusal::Spelling(start))?))
}

/// How many tokens the text has, where every byte belongs to a token or is a blank.
pub fn count_tokens(text: &[u8]) -> Result<usize, TextRefusal>
    ensures { CountsTokens text.now result }
{
    let mut at = 0;
    let mut count = 0;
    // Kept as a loop: an iterator over tokens would be a struct with laws, and an end after a refusal, for this one use.
    while let Some(token) = next_token(text, at)? {
        at = token.end;
        count += 1;
    }
    Ok(count)
}

/// A text has one list of tokens or one first fault of spelling, and never both: what the lexer answers is
/// the only right answer.
pub fn tokens_are_one()
    ensures tokens { TokensAreOne }
    ensures fault { FirstFaultIsOne }
    ensures apart { NoFaultAmongTokens }
{}
