//! Expressions with their items or their refusal, at every edge.
#![tactic(auto)]

#[cfg(test)]
mod tests {
    use expression::{Item, Operator};
    use expression_reader::Reader;
    use lock_text::TextRefusal;
    use names::{Full, NameList};

    // The variables with these names.
    fn variables<'a>(names: &[&'a [u8]]) -> Result<NameList<'a>, Full> {
        let mut list = NameList::new();
        for name in names {
            list.declare(name)?;
        }
        Ok(list)
    }

    // An item as one byte: a number or a variable by its own number, an operator or `not` by its sign.
    fn sign(item: Item) -> u8 {
        match item {
            Item::Number(number) | Item::Variable(number) => number,
            Item::Not => b'!',
            Item::Operator(operator) => match operator {
                Operator::Or => b'|',
                Operator::And => b'&',
                Operator::Equal => b'=',
                Operator::NotEqual => b'#',
                Operator::Less => b'<',
                Operator::LessEqual => b'L',
                Operator::Plus => b'+',
                Operator::Minus => b'-',
            },
        }
    }

    // A text, the place behind its expression, and the expression's items. The variables are a and b.
    const READ: [(&[u8], usize, &[u8]); 9] = [
        (b"7", 1, b"\x07"),
        (b" 255 : x", 4, b"\xff"),
        (b"a-b+2;", 5, b"\x00\x01-\x02+"),
        (b"1 or 2 and 3", 12, b"\x01\x02\x03&|"),
        (b"1 and 2 or 3", 12, b"\x01\x02&\x03|"),
        (b"not 2 == 1", 10, b"\x02\x01=!"),
        (b"not not a <= b", 14, b"\x00\x01L!!"),
        (b"(1 or 2) and 3 != 4", 19, b"\x01\x02|\x03\x04#&"),
        (b"1 < 2 $", 5, b"\x01\x02<"),
    ];

    #[test]
    fn expressions_are_read(rt: HostRuntime) -> Result<(), Full> {
        let names = variables(&[b"a", b"b"])?;
        for (text, end, items) in READ {
            let mut reader = Reader::new();
            assert_eq!(rt; reader.expression(text, &names), Ok(()));
            assert_eq!(rt; reader.at, end);
            assert_eq!(rt; reader.written, items.len());
            assert_eq!(rt; reader.counted, items.len());
            for (item, want) in reader.items.iter().zip(items) {
                assert_eq!(rt; sign(*item), *want);
            }
        }
        Ok(())
    }

    // A text and its refusal. Eight levels are open at most; a number is at most 255.
    const REFUSED: [(&[u8], TextRefusal); 16] = [
        (b"", TextRefusal::Unwanted(0)),
        (b"  ", TextRefusal::Unwanted(2)),
        (b"1 + ", TextRefusal::Unwanted(4)),
        (b"- 1", TextRefusal::Unwanted(0)),
        (b"1 == not 1", TextRefusal::Unwanted(5)),
        (b"1 + not 1", TextRefusal::Unwanted(4)),
        (b"(1 == 1 == 1)", TextRefusal::Unwanted(8)),
        (b"(1", TextRefusal::Unwanted(2)),
        (b"(1 $", TextRefusal::Spelling(3)),
        (b"1 + $", TextRefusal::Spelling(4)),
        (b"256", TextRefusal::OutOfRange(0)),
        (b"1 or 99999", TextRefusal::OutOfRange(5)),
        (b"a + c", TextRefusal::Unknown(4)),
        (b"((((((((( 1", TextRefusal::PastLimit(8)),
        (b"not(not(not(not(not 1", TextRefusal::PastLimit(16)),
        (b"try", TextRefusal::Unwanted(0)),
    ];

    #[test]
    fn faults_are_refused(rt: HostRuntime) -> Result<(), Full> {
        let names = variables(&[b"a"])?;
        for (text, refusal) in REFUSED {
            let mut reader = Reader::new();
            assert_eq!(rt; reader.expression(text, &names), Err(refusal));
            assert_eq!(rt; reader.at, 0);
            assert_eq!(rt; reader.written, 0);
        }
        Ok(())
    }

    const OPERANDS: &[u8] = b"1+1+1+1+1+1+1+1+1+1+1+1+1+1+1+1+1+1+1+1+1+1+1+1+1+1+1+1+1+1+1+1";

    // 32 operands are read, the 33rd is past the limit, unless a lower number decides there.
    #[test]
    fn operands_have_a_limit(rt: HostRuntime) {
        let names = NameList::new();
        let mut reader = Reader::new();
        assert_eq!(rt; reader.expression(OPERANDS, &names), Ok(()));
        assert_eq!(rt; reader.operands, 32);
        assert_eq!(rt; reader.written, 63);
        let more: [(&[u8], TextRefusal); 3] = [
            (
                b"1+1+1+1+1+1+1+1+1+1+1+1+1+1+1+1+1+1+1+1+1+1+1+1+1+1+1+1+1+1+1+1+1",
                TextRefusal::PastLimit(64),
            ),
            (
                b"1+1+1+1+1+1+1+1+1+1+1+1+1+1+1+1+1+1+1+1+1+1+1+1+1+1+1+1+1+1+1+1+256",
                TextRefusal::OutOfRange(64),
            ),
            (
                b"1+1+1+1+1+1+1+1+1+1+1+1+1+1+1+1+1+1+1+1+1+1+1+1+1+1+1+1+1+1+1+1+x",
                TextRefusal::Unknown(64),
            ),
        ];
        for (text, refusal) in more {
            let mut reader = Reader::new();
            assert_eq!(rt; reader.expression(text, &names), Err(refusal));
        }
    }

    // Sixty-five expressions of 63 items leave room for one item more: the next operator is past the limit.
    #[test]
    fn items_have_a_limit(rt: HostRuntime) {
        let names = NameList::new();
        let mut reader = Reader::new();
        for _ in 0..65 {
            reader.at = 0;
            assert_eq!(rt; reader.expression(OPERANDS, &names), Ok(()));
        }
        assert_eq!(rt; reader.counted, 4095);
        reader.at = 0;
        let told = reader.expression(b"1+1", &names);
        assert_eq!(rt;
            told.map_err(|refusal| (refusal.number(), refusal.index())),
            Err((8, 1))
        );
        assert_eq!(rt; reader.counted, 0);
    }
}
