//! Piles of layers over networks, and what they answer.
#![tactic(auto)]

#[cfg(test)]
mod tests {
    use auction::Fault;
    use layers::{HeldBack, Monitored};
    use network::Network;
    use std::process::Abort;
    use std::test::Fail;
    use table::Table;
    use tree::Tree;

    // Sensitivities for the first four zones, and 0 for the others.
    fn four(a: i16, b: i16, c: i16, d: i16) -> [i16; 24] {
        let mut all = [0; 24];
        all[0] = a;
        all[1] = b;
        all[2] = c;
        all[3] = d;
        all
    }

    // The limits of lines 0 to 8.
    fn shape<N: Network>(rt: &impl Abort, net: &N, zones: usize, lines: usize, limits: &[u32; 9]) {
        assert_eq!(rt; net.zones(), zones);
        assert_eq!(rt; net.lines(), lines);
        for (line, limit) in limits.iter().enumerate() {
            assert_eq!(rt; net.limit(line), *limit);
        }
    }

    // For zones 0 to 4.
    fn row<N: Network>(rt: &impl Abort, net: &N, line: usize, expected: &[i16; 5]) {
        for (zone, sensitivity) in expected.iter().enumerate() {
            assert_eq!(rt; net.sensitivity(line, zone), *sensitivity);
        }
    }

    // Zone 1 hangs on 0, zone 2 on 1, zone 3 on 0.
    fn tree() -> Result<Tree, Fail> {
        let mut tree = Tree::new();
        tree.link(0, 100, 200)?;
        tree.link(1, 300, 400)?;
        tree.link(0, 500, 600)?;
        Ok(tree)
    }

    // Lines 0 and 1 are the ways between 1 and 0, 2 and 3 those between 2 and 1, 4 and 5 those between 3 and 0; from child to parent first.
    #[test]
    fn a_tree(rt: HostRuntime) -> Result<(), Fail> {
        let net = tree()?;
        shape(&rt, &net, 4, 6, &[100, 200, 300, 400, 500, 600, 0, 0, 0]);
        // zones 1 and 2 are below line 0, which leads from 1 to 0
        row(&rt, &net, 0, &[0, 1000, 1000, 0, 0]);
        row(&rt, &net, 1, &[0, -1000, -1000, 0, 0]);
        row(&rt, &net, 2, &[0, 0, 1000, 0, 0]);
        row(&rt, &net, 5, &[0, 0, 0, -1000, 0]);
        row(&rt, &net, 6, &[0, 0, 0, 0, 0]);
        Ok(())
    }

    #[test]
    fn refused_links(rt: HostRuntime) -> Result<(), Fail> {
        let mut net = tree()?;
        // the next zone is 4, so it cannot be its own parent
        assert_eq!(rt; net.link(4, 1, 1), Err(Fault::Missing));
        assert_eq!(rt; net.link(3, 1, 10_000_001), Err(Fault::OutOfRange));
        shape(&rt, &net, 4, 6, &[100, 200, 300, 400, 500, 600, 0, 0, 0]);
        Ok(())
    }

    // A layer that watches line 6, and over it one that holds back of lines 0, 3 and 6.
    fn held() -> Result<HeldBack<Monitored<Tree>>, Fail> {
        let mut watched = Monitored::new(tree()?);
        watched.watch(700, four(10, -20, 30, 0))?;
        let mut held = HeldBack::new(watched);
        held.hold_back(0, 40)?;
        held.hold_back(3, 5)?;
        // the last amount counts
        held.hold_back(3, 1)?;
        held.hold_back(6, 1000)?;
        Ok(held)
    }

    // Over that, a layer that watches line 7.
    fn pile() -> Result<Monitored<HeldBack<Monitored<Tree>>>, Fail> {
        let mut top = Monitored::new(held()?);
        top.watch(800, four(1, 0, 0, -1))?;
        Ok(top)
    }

    // Six lines of the tree and one of each layer that watches. The limits: 100 less 40, 400 less 1, and 700 less 1000, which is no less than 0.
    #[test]
    fn layers_over_a_tree(rt: HostRuntime) -> Result<(), Fail> {
        let net = pile()?;
        shape(&rt, &net, 4, 8, &[60, 200, 300, 399, 500, 600, 0, 800, 0]);
        row(&rt, &net, 0, &[0, 1000, 1000, 0, 0]);
        row(&rt, &net, 3, &[0, 0, -1000, 0, 0]);
        row(&rt, &net, 6, &[10, -20, 30, 0, 0]);
        row(&rt, &net, 7, &[1, 0, 0, -1, 0]);
        row(&rt, &net, 8, &[0, 0, 0, 0, 0]);
        Ok(())
    }

    #[test]
    fn refused_rows(rt: HostRuntime) -> Result<(), Fail> {
        let mut net = pile()?;
        let mut fifth = [0; 24];
        fifth[4] = 1;
        // there is no zone 4; that is asked before the limit
        assert_eq!(rt; net.watch(10_000_001, fifth), Err(Fault::Missing));
        assert_eq!(rt; net.watch(5, four(1, 1001, 1, 1)), Err(Fault::OutOfRange));
        shape(&rt, &net, 4, 8, &[60, 200, 300, 399, 500, 600, 0, 800, 0]);
        Ok(())
    }

    #[test]
    fn refused_amounts(rt: HostRuntime) -> Result<(), Fail> {
        let mut net = held()?;
        assert_eq!(rt; net.hold_back(7, 1), Err(Fault::Missing));
        assert_eq!(rt; net.hold_back(6, 10_000_001), Err(Fault::OutOfRange));
        shape(&rt, &net, 4, 7, &[60, 200, 300, 399, 500, 600, 0, 0, 0]);
        Ok(())
    }

    // Two ways round a ring of three zones: of what is fed into zone 0 and taken out at zone 2, a third goes by zone 1.
    fn ring() -> Result<Table, Fail> {
        let mut ring = Table::new(3)?;
        ring.add(1000, four(333, 0, 0, 0))?;
        ring.add(2000, four(667, 0, 0, 0))?;
        Ok(ring)
    }

    #[test]
    fn layers_over_a_table(rt: HostRuntime) -> Result<(), Fail> {
        let mut held = HeldBack::new(ring()?);
        held.hold_back(1, 500)?;
        let mut net = Monitored::new(held);
        net.watch(30, four(0, -4, 5, 0))?;
        shape(&rt, &net, 3, 3, &[1000, 1500, 30, 0, 0, 0, 0, 0, 0]);
        row(&rt, &net, 1, &[667, 0, 0, 0, 0]);
        row(&rt, &net, 2, &[0, -4, 5, 0, 0]);
        Ok(())
    }

    #[test]
    fn refused_table(rt: HostRuntime) -> Result<(), Fail> {
        assert!(rt; Table::new(0).is_err());
        assert!(rt; Table::new(25).is_err());
        let mut net = ring()?;
        assert_eq!(rt; net.add(1, four(0, 0, 0, 7)), Err(Fault::Missing));
        shape(&rt, &net, 3, 2, &[1000, 2000, 0, 0, 0, 0, 0, 0, 0]);
        Ok(())
    }

    // A table holds 60 lines, and so does a layer over it.
    #[test]
    fn full_table(rt: HostRuntime) -> Result<(), Fail> {
        let mut full = Table::new(1)?;
        for _ in 0..60 {
            full.add(5, four(1, 0, 0, 0))?;
        }
        assert_eq!(rt; full.add(5, four(1, 0, 0, 0)), Err(Fault::NoPlace));
        let mut over = Monitored::new(full);
        assert_eq!(rt; over.watch(5, four(1, 0, 0, 0)), Err(Fault::NoPlace));
        assert_eq!(rt; over.lines(), 60);
        Ok(())
    }

    // A layer watches 10 lines of its own.
    #[test]
    fn full_layer(rt: HostRuntime) -> Result<(), Fail> {
        let mut net = Monitored::new(Tree::new());
        for _ in 0..10 {
            net.watch(5, four(1, 0, 0, 0))?;
        }
        assert_eq!(rt; net.watch(5, four(1, 0, 0, 0)), Err(Fault::NoPlace));
        assert_eq!(rt; net.lines(), 10);
        Ok(())
    }
}
