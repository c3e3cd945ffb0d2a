//! Texts with their tokens or their refusal, at every edge.
#![tactic(auto)]

#[cfg(test)]
mod tests {
    use lock_text::{Mark, Placed, TextRefusal, Token, Word, count_tokens, next_token};
    use std::test::Fail;

    const WORDS: [(&[u8], Word); 13] = [
        (b"procs", Word::Procs),
        (b"vars", Word::Vars),
        (b"locs", Word::Locs),
        (b"classes", Word::Classes),
        (b"cmds", Word::Cmds),
        (b"idle", Word::Idle),
        (b"try", Word::Try),
        (b"crit", Word::Crit),
        (b"exit", Word::Exit),
        (b"none", Word::None),
        (b"and", Word::And),
        (b"or", Word::Or),
        (b"not", Word::Not),
    ];

    const MARKS: [(&[u8], Mark); 12] = [
        (b"(", Mark::Open),
        (b")", Mark::Close),
        (b"+", Mark::Plus),
        (b"-", Mark::Minus),
        (b"=", Mark::Assign),
        (b"==", Mark::Equal),
        (b"!=", Mark::NotEqual),
        (b"<", Mark::Less),
        (b"<=", Mark::LessEqual),
        (b":", Mark::Colon),
        (b";", Mark::Semicolon),
        (b",", Mark::Comma),
    ];

    // A text, a place, and the token that comes next there: its bytes, its start and its end. Case counts, a
    // reserved word within a name is none, a name has at most 16 bytes and a number 5 digits.
    const NAMES: [(&[u8], usize, &[u8], usize, usize); 8] = [
        (b"TRY", 0, b"TRY", 0, 3),
        (b"trying", 0, b"trying", 0, 6),
        (b" x ", 0, b"x", 1, 2),
        (b"Z_9a+", 0, b"Z_9a", 0, 4),
        (b"sixteen_bytes_ab", 0, b"sixteen_bytes_ab", 0, 16),
        (b"1and1", 1, b"and1", 1, 5),
        (b"\t\r\n procs_", 0, b"procs_", 4, 10),
        (b"$ abc", 1, b"abc", 2, 5),
    ];

    const NUMBERS: [(&[u8], usize, &[u8], usize, usize); 5] = [
        (b"0", 0, b"0", 0, 1),
        (b"00042", 0, b"00042", 0, 5),
        (b"99999and", 0, b"99999", 0, 5),
        (b"procs 9 $", 5, b"9", 6, 7),
        (b"0l", 0, b"0", 0, 1),
    ];

    // How many tokens a text has: the longest wins, and no blank is needed between two.
    const COUNTS: [(&[u8], usize); 14] = [
        (b"", 0),
        (b" \t\n\r", 0),
        (b" a\tb\nc\rd ", 4),
        (b"1and 1", 3),
        (b"1and1", 2),
        (b"0l", 2),
        (b"===", 2),
        (b"<==", 2),
        (b"< =", 2),
        (b"a!=b", 3),
        (b"12345and", 2),
        (b"procs 9", 2),
        (b"a b sixteen_bytes_ab", 3),
        (b"a=b+1-(c);", 10),
    ];

    // Where a text has its first fault of spelling.
    const FAULTS: [(&[u8], usize); 18] = [
        (b"seventeen_bytes_a", 0),
        (b"x seventeen_bytes_a $", 2),
        (b"_x", 0),
        (b"100000", 0),
        (b"7 000000", 2),
        (b"!", 0),
        (b"a ! = b", 2),
        (b"a !", 2),
        (b"a=!b", 2),
        (b"a>b", 1),
        (b"a & $", 2),
        (b"\x00", 0),
        (b" \x0b", 1),
        (b"ab\x7f", 2),
        (b"ab \x80", 3),
        (b"\xff", 0),
        (b"\xc3\xa9", 0),
        (b"procs 9 $", 8),
    ];

    // The next token from `from` on, which has to be there.
    fn found(text: &[u8], from: usize) -> Result<Placed<Token>, Fail> {
        next_token(text, from)
            .map_err(|_| Fail::new("a refusal"))?
            .ok_or_else(|| Fail::new("no token"))
    }

    // Kept as four tests, here and below: the name of one that fails says which kind of token is wrong.
    #[test]
    fn words(rt: HostRuntime) -> Result<(), Fail> {
        for (text, want) in WORDS {
            let placed = found(text, 0)?;
            assert_eq!(rt; placed.token, Token::Word(want));
            assert_eq!(rt; placed.end, text.len());
        }
        Ok(())
    }

    #[test]
    fn marks(rt: HostRuntime) -> Result<(), Fail> {
        for (text, want) in MARKS {
            let placed = found(text, 0)?;
            assert_eq!(rt; placed.token, Token::Mark(want));
            assert_eq!(rt; placed.end, text.len());
        }
        Ok(())
    }

    #[test]
    fn names(rt: HostRuntime) -> Result<(), Fail> {
        for (text, from, want, start, end) in NAMES {
            let token = Token::Name(want);
            assert_eq!(rt; found(text, from)?, Placed { token, start, end });
        }
        Ok(())
    }

    #[test]
    fn numbers(rt: HostRuntime) -> Result<(), Fail> {
        for (text, from, want, start, end) in NUMBERS {
            let token = Token::Number(want);
            assert_eq!(rt; found(text, from)?, Placed { token, start, end });
        }
        Ok(())
    }

    // How many tokens the text has, or the number and the index of its refusal.
    fn counted(text: &[u8]) -> Result<usize, (u8, usize)> {
        count_tokens(text).map_err(|refusal| (refusal.number(), refusal.index()))
    }

    #[test]
    fn counts(rt: HostRuntime) {
        for (text, count) in COUNTS {
            assert_eq!(rt; counted(text), Ok(count));
        }
    }

    #[test]
    fn faults(rt: HostRuntime) {
        for (text, index) in FAULTS {
            assert_eq!(rt; counted(text), Err((2, index)));
        }
    }

    // Past the last token there is none, and past the text neither.
    #[test]
    fn ends(rt: HostRuntime) {
        assert_eq!(rt; next_token(b"a  ", 1), Ok(None));
        assert_eq!(rt; next_token(b"a", 1), Ok(None));
        assert_eq!(rt; next_token(b"a", usize::MAX), Ok(None));
        assert!(rt; next_token(b"procs 9 $", 7).is_err());
    }

    #[test]
    fn limit_of_length(rt: HostRuntime) {
        assert_eq!(rt; counted(&[b' '; 16384]), Ok(0));
        assert_eq!(rt; counted(&[b'('; 16384]), Ok(16384));
        assert_eq!(rt; counted(&[b' '; 16385]), Err((1, 0)));
        assert_eq!(rt; counted(&[b'$'; 16385]), Err((1, 0)));
        assert!(rt; next_token(&[b' '; 16385], 16385).is_err());
    }

    #[test]
    fn numbers_of_refusals(rt: HostRuntime) {
        assert_eq!(rt;
            (TextRefusal::TooLong.number(), TextRefusal::TooLong.index()),
            (1, 0)
        );
        assert_eq!(rt;
            (
                TextRefusal::Spelling(7).number(),
                TextRefusal::Spelling(7).index(),
            ),
            (2, 7)
        );
    }
}
