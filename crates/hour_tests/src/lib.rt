//! Whole streams and their lines, worked out by hand from docs/RULES.md and docs/STREAM.md.
#![tactic(auto)]

#[cfg(test)]
mod tests {
    use answers::{answers, stream_answers};
    use clearing::ClearingBox;
    use kinds::{Bids, Offers, Transfers};
    use layers::{HeldBack, Monitored};
    use notation::to_bytes;
    use std::alloc::{AllocError, Global};
    use std::mem::size_of;
    use std::test::Fail;
    use table::Table;

    // What a program answers to the stream of a readable text.
    fn lines_of<F: FnOnce(Global, &[u8]) -> Result<String, AllocError>>(
        rt: &HostRuntime,
        program: F,
        text: &str,
    ) -> Result<String, Fail>
        requires { F.IsAlwaysCallable program }
    {
        let Ok(stream) = to_bytes(rt.alloc(), text.as_bytes()) else {
            return Err(Fail::new("the text is not readable"));
        };
        Ok(program(rt.alloc(), stream.as_slice())?)
    }

    // A refused monitored line leaves the table open for rows; the first accepted one does not.
    #[test]
    fn table_and_layers(rt: HostRuntime) -> Result<(), Fail> {
        let lines = lines_of(
            &rt,
            answers,
            "Y 0; Y 2; K 0 1 1; R 10 1000 -1000; V 5 0 0 1; R 20 500; V 5 1000; R 1 1; H 3 1; H 2 5; V 5 1; G",
        )?;
        assert_eq!(rt;
            lines.as_str(),
            "0 Y refused 5 0 0\n2 Y ok\n4 K refused 4 0 0\n14 R ok\n67 V refused 5 0 0\n120 R ok\n173 V ok\n226 R refused 4 0 0\n279 H refused 5 0 0\n285 H ok\n291 V refused 4 0 0\n344 G ok\n"
        );
        Ok(())
    }

    // A tree of one zone is whole at once; reading ends after the box is open.
    #[test]
    fn one_zone(rt: HostRuntime) -> Result<(), Fail> {
        let lines = lines_of(
            &rt,
            answers,
            "Z 1; K 0 1 1; Y 1; H 0 0; V 0 0; H 0 1; H 1 1; G; Z 1",
        )?;
        assert_eq!(rt;
            lines.as_str(),
            "0 Z ok\n2 K refused 4 0 0\n12 Y refused 4 0 0\n14 H refused 5 0 0\n20 V ok\n73 H ok\n79 H refused 5 0 0\n85 G ok\n"
        );
        Ok(())
    }

    // Once the box is open the network block is over.
    #[test]
    fn after_the_block(rt: HostRuntime) -> Result<(), Fail> {
        let lines = lines_of(
            &rt,
            stream_answers,
            "Z 1; K 0 1 1; Y 1; H 0 0; V 0 0; H 0 1; H 1 1; G; Z 1; Z 0",
        )?;
        assert_eq!(rt;
            lines.as_str(),
            "0 Z ok\n2 K refused 4 0 0\n12 Y refused 4 0 0\n14 H refused 5 0 0\n20 V ok\n73 H ok\n79 H refused 5 0 0\n85 G ok\n86 Z refused 4 0 0\n88 Z refused 4 0 0\n"
        );
        Ok(())
    }

    // The eleventh monitored row has no place.
    #[test]
    fn full_layer(rt: HostRuntime) -> Result<(), Fail> {
        let lines = lines_of(
            &rt,
            answers,
            "Z 1; V 1; V 1; V 1; V 1; V 1; V 1; V 1; V 1; V 1; V 1; V 1; G",
        )?;
        assert_eq!(rt;
            lines.as_str(),
            "0 Z ok\n2 V ok\n55 V ok\n108 V ok\n161 V ok\n214 V ok\n267 V ok\n320 V ok\n373 V ok\n426 V ok\n479 V ok\n532 V refused 8 0 0\n585 G ok\n"
        );
        Ok(())
    }

    // The worked hour of docs/RULES.md: house 0 is paid 240 cents, house 1 pays 300, and 60 are congestion rent.
    #[test]
    fn worked_hour(rt: HostRuntime) -> Result<(), Fail> {
        let lines = lines_of(
            &rt,
            stream_answers,
            "Z 2; K 0 40 30; G; O 0 0 3000 100; O 0 1 5000 50; B 1 1 9000 60; C 0; A 0 0 0 30; A 0 0 1 30; A 0 1 0 60; L 0 3000000; M 0 1 2000; Q 0; S 0",
        )?;
        assert_eq!(rt;
            lines.as_str(),
            "0 Z ok\n2 K ok\n12 G ok\n13 O ok\n24 O ok\n35 B ok\n46 C ok\n48 A ok\n57 A ok\n66 A ok\n75 L ok\n81 M ok\n88 Q accepted 300000 60000000 0 0\n90 S accepted 300000 60000000 -240000000 300000000\n"
        );
        Ok(())
    }

    // An order takes 1 to 10,000,000 kWh, and all standing orders together 10,000,000; a withdrawn one counts no more, and is nobody's to withdraw again.
    #[test]
    fn quantities(rt: HostRuntime) -> Result<(), Fail> {
        let lines = lines_of(
            &rt,
            stream_answers,
            "Z 1; G; O 0 0 1 0; O 0 0 1 10000001; O 0 0 1 10000000; B 1 0 1 1; W 1 0 0; W 0 0 0; W 0 0 0; B 1 0 1 1; W 2 1 0; W 1 3 0; T 0 0 0 1 1",
        )?;
        assert_eq!(rt;
            lines.as_str(),
            "0 Z ok\n2 G ok\n3 O refused 6 0 0\n14 O refused 6 0 0\n25 O ok\n36 B refused 8 0 0\n47 W refused 7 0 0\n52 W ok\n57 W refused 7 0 0\n62 B ok\n73 W refused 3 0 0\n78 W refused 5 0 0\n83 T refused 5 0 0\n"
        );
        Ok(())
    }

    // The whole state of a box with both layers over a table takes less than 64 KiB.
    #[test]
    fn small_state(rt: HostRuntime) {
        let state = size_of::<ClearingBox<HeldBack<Monitored<Table>>, Offers, Bids, Transfers>>();
        assert!(rt; state < 65536);
    }

    // After a byte that names no command nothing more is read.
    #[test]
    fn no_command(rt: HostRuntime) -> Result<(), Fail> {
        let lines = answers(rt.alloc(), &[90, 2, 7, 71])?;
        assert_eq!(rt; lines.as_str(), "0 Z ok\n2 ? refused 1 0 0\n");
        Ok(())
    }

    // After missing operands nothing more is read.
    #[test]
    fn no_operands(rt: HostRuntime) -> Result<(), Fail> {
        let lines = answers(rt.alloc(), &[90, 2, 75, 0, 1, 1])?;
        assert_eq!(rt; lines.as_str(), "0 Z ok\n2 K refused 2 0 0\n");
        Ok(())
    }
}
