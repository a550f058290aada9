//! The seven calls, and what the box answers to one that is not refused.

ghost use Rattle.std.specs.Prelude.{◌≡◌};
ghost use Rattle.history.specs.Events.{caller_number};

/// What a house hands in to enter an order, by the list that the order goes to.
#[derive(Clone, Copy, PartialEq, Eq, Debug)]
pub enum Wish<P, Q, R> {
    First(P),
    Second(Q),
    Third(R),
}

/// One number of a sheet, set anew.
#[derive(Clone, Copy, PartialEq, Eq, Debug)]
pub enum Filling {
    /// The quantity of an order, in kWh.
    Quantity { list: u8, number: u16, kwh: u32 },
    /// The reference price, in thousandths of a cent per MWh.
    Lambda { lambda: i32 },
    /// The shadow price of a line, in cents per MWh.
    ShadowPrice { line: u8, price: u32 },
}

/// A call, with the number of the house that makes it.
// The house stands in each call, and list and number apart: no fact ties them, and a struct would only add a name to each clause.
#[derive(Clone, Copy, PartialEq, Eq, Debug)]
pub enum Call<P, Q, R> {
    /// Enters an order.
    Enter { house: u8, wish: Wish<P, Q, R> },
    /// Ends the standing of the house's own order.
    Withdraw { house: u8, list: u8, number: u16 },
    /// Closes the hour.
    Close { house: u8 },
    /// Fills in one number of the house's own sheet.
    Fill { house: u8, filling: Filling },
    /// Judges the house's sheet.
    Try { house: u8 },
    /// Judges the house's sheet, and settles the hour by it.
    Settle { house: u8 },
    /// Ends the hour without money.
    Void { house: u8 },
}

impl<P, Q, R> Call<P, Q, R> {
    /// The number of the house that makes the call.
    pub fn house(&self) -> u8
        ensures { result ≡ caller_number self.now }
    {
        match self {
            Call::Enter { house, .. }
            | Call::Withdraw { house, .. }
            | Call::Close { house }
            | Call::Fill { house, .. }
            | Call::Try { house }
            | Call::Settle { house }
            | Call::Void { house } => *house,
        }
    }
}

/// The answer to a call that is not refused.
// No Option: a call that is done lacks nothing.
#[derive(Clone, Copy, PartialEq, Eq, Debug)]
pub enum Reply {
    Done,
    /// A sheet that breaks no rule: its welfare, in thousandths of a cent, and its rent, in millionths.
    Accepted { welfare: i64, rent: i64 },
}
