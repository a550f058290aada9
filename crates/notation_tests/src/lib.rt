//! Examples of readable text and streams, worked out by hand.
#![tactic(auto)]

#[cfg(test)]
mod tests {
    use notation::{TextFault, to_bytes, to_text};
    use parsing::Wrong;
    use std::test::Fail;
    use stream::Reader;

    const HOUR: &str =
        "Z 2; K 0 40 30; G; O 0 0 3000 100; O 0 1 5000 50; B 1 1 9000 60; C 0; A 0 0 0 30; A 0 0 1 30; A 0 1 0 60; L 0 3000000; M 0 1 2000; Q 0; S 0";

    const OFFSETS: [usize; 14] = [0, 2, 12, 13, 24, 35, 46, 48, 57, 66, 75, 81, 88, 90];

    fn bytes_of(rt: &HostRuntime, text: &str) -> Result<Vec<u8>, Fail> {
        Ok(to_bytes(rt.alloc(), text.as_bytes())?)
    }

    fn fault_of(rt: &HostRuntime, text: &str) -> Option<TextFault> {
        to_bytes(rt.alloc(), text.as_bytes()).err()
    }

    fn wrong_in(line: u32, wrong: Wrong) -> Option<TextFault> {
        Some(TextFault::Wrong { line, wrong })
    }

    #[test]
    fn the_worked_hour(rt: HostRuntime) -> Result<(), Fail> {
        let bytes = bytes_of(&rt, HOUR)?;
        assert_eq!(rt; bytes.len(), 92);
        let mut reader = Reader::new(bytes.as_slice());
        for offset in OFFSETS {
            let Ok(Some(item)) = reader.next() else {
                return Err(Fail::new("no item"));
            };
            assert_eq!(rt; item.offset, offset);
        }
        assert!(rt; matches!(reader.next(), Ok(None)));
        // 3000 is 0xbb8, and 3000000 is 0x2dc6c0
        assert!(rt;
            &bytes.as_slice()[13..24] == b"O\x00\x00\xb8\x0b\x00\x00\x64\x00\x00\x00".as_slice()
        );
        assert!(rt; &bytes.as_slice()[75..81] == b"L\x00\xc0\xc6\x2d\x00".as_slice());
        Ok(())
    }

    #[test]
    fn there_and_back(rt: HostRuntime) -> Result<(), Fail> {
        let bytes = bytes_of(
            &rt,
            "Y 3 # a table\nR 7 -1 1000\r\n;V 4294967295 -32768;\tT 1 0 2 5 6\nW 0 1 65535;X 1;H 2 9;L 1 -2147483648",
        )?;
        assert_eq!(rt; bytes.len(), 139);
        let text = to_text(rt.alloc(), bytes.as_slice())?;
        assert_eq!(rt;
            text.as_str(),
            "Y 3\nR 7 -1 1000 0 0 0 0 0 0 0 0 0 0 0 0 0 0 0 0 0 0 0 0 0 0\nV 4294967295 -32768 0 0 0 0 0 0 0 0 0 0 0 0 0 0 0 0 0 0 0 0 0 0 0\nT 1 0 2 5 6\nW 0 1 65535\nX 1\nH 2 9\nL 1 -2147483648\n"
        );
        let again = bytes_of(&rt, text.as_str())?;
        assert_eq!(rt; again.as_slice(), bytes.as_slice());
        assert!(rt;
            &bytes.as_slice()[0..11] == b"Y\x03R\x07\x00\x00\x00\xff\xff\xe8\x03".as_slice()
        );
        Ok(())
    }

    #[test]
    fn wrong_texts(rt: HostRuntime) {
        assert_eq!(rt; fault_of(&rt, "Z 2\nK 0 40"), wrong_in(2, Wrong::TooFew));
        assert_eq!(rt; fault_of(&rt, "C 0 1"), wrong_in(1, Wrong::TooMany));
        assert_eq!(rt;
            fault_of(&rt, "# one\n# two\n Z 256"),
            wrong_in(3, Wrong::DoesNotFit)
        );
        assert_eq!(rt; fault_of(&rt, "W 0 0 -1"), wrong_in(1, Wrong::DoesNotFit));
        assert_eq!(rt; fault_of(&rt, "Q x"), wrong_in(1, Wrong::NoNumber));
        assert_eq!(rt; fault_of(&rt, "E 1"), wrong_in(1, Wrong::NoCommand));
    }

    // How many operands there are is asked before whether they fit.
    #[test]
    fn the_count_comes_first(rt: HostRuntime) {
        assert_eq!(rt; fault_of(&rt, "K 256"), wrong_in(1, Wrong::TooFew));
        assert_eq!(rt; fault_of(&rt, "C 256 1"), wrong_in(1, Wrong::TooMany));
    }

    #[test]
    fn faults_in_words(rt: HostRuntime) -> Result<(), Fail> {
        let fault = TextFault::Wrong {
            line: 2,
            wrong: Wrong::TooFew,
        };
        let words = format!(in rt.alloc(); "{fault}")?;
        assert_eq!(rt; words.as_str(), "line 2: operands are missing");
        Ok(())
    }

    #[test]
    fn streams_that_cannot_be_read(rt: HostRuntime) -> Result<(), Fail> {
        let unknown = to_text(rt.alloc(), b"Z\x02!G")?;
        assert_eq!(rt; unknown.as_str(), "Z 2\n# unknown byte at offset 2\n");
        let missing = to_text(rt.alloc(), b"GK\x00\x00")?;
        assert_eq!(rt; missing.as_str(), "G\n# missing operands at offset 1\n");
        Ok(())
    }
}
