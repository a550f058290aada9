//! A fourth kind of order, whose worth is not proportional to its quantity: the list and all that asks it know nothing of that.
#![tactic(auto)]

mod steps;

use listed::Listed;
pub use steps::Stepped;

pub type SteppedBids = Listed<Stepped>;

#[cfg(test)]
mod tests {
    use super::*;
    use auction::bounds::MOST_ZONES;
    use auction::{Fault, House};
    use kinds::{Bids, Offers, TransferWish, Transfers, ZoneWish};
    use orders::OrderList;

    const WISH: ZoneWish = ZoneWish {
        zone: 2,
        price: 100,
        quantity: 10,
    };

    // Five kWh at 100, five at 50: at 60,000 the first five gain 40,000 each, the others lose 10,000 each.
    #[test]
    fn two_steps(rt: HostRuntime) {
        let mut bids = SteppedBids::new();
        assert_eq!(rt; bids.enter(House::One, WISH, 2, 0), Err(Fault::Missing));
        assert_eq!(rt; bids.enter(House::One, WISH, 3, 0), Ok(()));
        assert_eq!(rt; bids.worth(0, 10), 750);
        let mut prices = [0i32; MOST_ZONES];
        prices[2] = 60_000;
        assert!(rt; bids.content(0, 5, &prices));
        assert!(rt; !bids.content(0, 6, &prices));
        bids.withdraw(0);
        assert_eq!(rt; bids.standing_kwh(), 0);
    }

    // An offer gains the zone price less its own, a bid its own less the zone price.
    #[test]
    fn offers_and_bids(rt: HostRuntime) {
        let mut prices = [0i32; MOST_ZONES];
        prices[2] = 60_000;
        let mut offers = Offers::new();
        assert_eq!(rt; offers.enter(House::Zero, WISH, 24, 0), Ok(()));
        assert_eq!(rt; offers.injection(0, 4, 2), 4);
        assert!(rt; !offers.content(0, 1, &prices));
        let mut bids = Bids::new();
        assert_eq!(rt;
            bids.enter(House::Zero, WISH, 24, 9_999_991),
            Err(Fault::NoPlace)
        );
        assert_eq!(rt; bids.enter(House::Zero, WISH, 24, 9_999_990), Ok(()));
        assert!(rt; bids.content(0, 10, &prices));
    }

    // From 60,000 to 160,001 the way costs 1 more than the transfer pays.
    #[test]
    fn transfers(rt: HostRuntime) {
        let mut prices = [0i32; MOST_ZONES];
        prices[2] = 60_000;
        prices[1] = 160_001;
        let wish = TransferWish {
            first: 2,
            second: 1,
            price: 100,
            quantity: 10,
        };
        let mut transfers = Transfers::new();
        assert_eq!(rt; transfers.enter(House::One, wish, 3, 0), Ok(()));
        assert_eq!(rt; transfers.injection(0, 3, 1), -3);
        assert!(rt; transfers.content(0, 0, &prices));
        prices[1] = 160_000;
        assert!(rt; transfers.content(0, 7, &prices));
    }
}
