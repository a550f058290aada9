//! A full hour, 24 zones, 60 lines and 512 orders in each list, judged so many times: for the benchmark.
#![tactic(auto)]

use auction::House;
use auction::bounds::{MOST_LINES, MOST_ORDERS, MOST_ZONES};
use judgement::judge;
use kinds::{Bids, Offers, TransferWish, Transfers, ZoneWish};
use listed::Listed;
use orders::{Book, OrderList};
use sheets::Sheet;
use table::Table;

/// A table in which each line has a sensitivity for each zone.
fn full_table() -> Option<Table> {
    let mut table = Table::new(MOST_ZONES as u8).ok()?;
    let mut sensitivities = [0i16; MOST_ZONES];
    for (zone, sensitivity) in sensitivities.iter_mut().enumerate() {
        *sensitivity = 7 * zone as i16 - 80;
    }
    for _ in 0..MOST_LINES {
        table.add(1000, sensitivities).ok()?;
    }
    Some(table)
}

/// A list with as many orders as it takes, all of one house.
fn full<L: OrderList + Drop, F: Fn(usize) -> L::Wish>(
    mut list: L,
    house: House,
    wish: F,
) -> Option<L>
    requires { F.IsAlwaysCallable wish }
{
    for number in 0..MOST_ORDERS {
        list.enter(house, wish(number), MOST_ZONES, 0).ok()?;
    }
    Some(list)
}

/// A wish for 1000 kWh at this price; the zones come in turn.
fn zone_wish(number: usize, price: u32) -> ZoneWish {
    ZoneWish {
        zone: (number % MOST_ZONES) as u8,
        price,
        quantity: 1000,
    }
}

/// A wish to transfer 1000 kWh from a zone to the next.
fn transfer_wish(number: usize) -> TransferWish {
    TransferWish {
        first: (number % MOST_ZONES) as u8,
        second: ((number % MOST_ZONES + 1) % MOST_ZONES) as u8,
        price: 0,
        quantity: 1000,
    }
}

fn full_book() -> Option<Book<Offers, Bids, Transfers>> {
    Some(Book {
        first: full(Listed::new(), House::Zero, |number| zone_wish(number, 3000))?,
        second: full(Listed::new(), House::One, |number| zone_wish(number, 1000))?,
        third: full(Listed::new(), House::One, |number| transfer_wish(number))?,
    })
}

/// At a price of 2000 cents everywhere no order gains by taking anything, so the sheet is accepted, and all rules are gone through.
fn judged(rounds: u32) -> Option<u32> {
    let table = full_table()?;
    let book = full_book()?;
    let mut sheet = Sheet::empty();
    sheet.fill_lambda(2_000_000).ok()?;
    let mut accepted = 0u32;
    for _ in 0..rounds {
        if judge(&table, &book.first, &book.second, &book.third, &sheet).is_ok() {
            accepted = accepted.saturating_add(1);
        }
    }
    Some(accepted)
}

/// How many of so many judgements of a full hour accept its sheet.
#[unsafe(no_mangle)]
pub extern "C" fn judge_full_hour(rounds: u32) -> u32 {
    judged(rounds).unwrap_or(0)
}
