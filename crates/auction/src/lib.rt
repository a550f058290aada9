//! What an hour of the zonal auction means: see specs/. Here is why a command is refused: the question that got a no, with its number and its place.
#![tactic(auto)]

pub mod bounds;
mod houses;

ghost use Rattle.std.specs.Prelude.{◌≡◌, ◌≤◌, MatchResult};
ghost use Rattle.auction.specs.Refusals.{broken_number, broken_place, refusal_number, refusal_place, refusal_of};
ghost use Rattle.auction.specs.Houses.{HouseNumbered, house_number};
ghost use Rattle.auction.specs.declared.Refusal.TheVariants.{Sheet, Stranger};

pub use houses::PerHouse;

/// The rule of the sheet that is broken first, and where.
#[derive(Clone, Copy, PartialEq, Eq, Debug)]
pub enum Broken {
    /// An order takes a quantity that is not possible for it, or a withdrawn one takes something.
    Quantity { list: u8, number: u16 },
    /// The net injections do not add up to 0.
    Balance,
    /// A flow is beyond its line's limit.
    Flow { line: u8 },
    /// A zone price is out of range.
    ZonePrice { zone: u8 },
    /// A line with a positive shadow price is not at its limit.
    Binding { line: u8 },
    /// A standing order is not content with its quantity.
    Contentment { list: u8, number: u16 },
}

impl Broken {
    /// The number under which a broken rule is reported.
    pub fn number(self) -> u8
        ensures { result ≡ broken_number self }
    {
        match self {
            Broken::Quantity { .. } => 10,
            Broken::Balance => 11,
            Broken::Flow { .. } => 12,
            Broken::ZonePrice { .. } => 13,
            Broken::Binding { .. } => 14,
            Broken::Contentment { .. } => 15,
        }
    }

    /// The two numbers of its place.
    pub fn place(self) -> (u16, u16)
        ensures { result ≡ broken_place self }
    {
        match self {
            Broken::Quantity { list, number } | Broken::Contentment { list, number } => {
                (u16::from(list), number)
            }
            Broken::Balance => (0, 0),
            Broken::Flow { line } | Broken::Binding { line } => (u16::from(line), 0),
            Broken::ZonePrice { zone } => (u16::from(zone), 0),
        }
    }
}

/// Why a command is refused, in the order in which the questions are put.
#[derive(Clone, Copy, PartialEq, Eq, Debug)]
pub enum Refusal {
    /// The byte names no command.
    NoCommand,
    /// Operands are missing.
    NoOperands,
    /// The house is neither 0 nor 1.
    Stranger,
    /// The hour, or the network block, does not allow the command now.
    NotNow,
    /// Something that the command names does not exist.
    Missing,
    /// A number is out of range.
    OutOfRange,
    /// The withdrawn order is not the house's own, or not standing.
    NotOwn,
    /// No place is left.
    NoPlace,
    /// No try is left.
    NoTry,
    /// The sheet breaks a rule.
    Sheet(Broken),
}

impl Refusal {
    /// The number of the question that got a no.
    pub fn number(self) -> u8
        ensures { result ≡ refusal_number self }
    {
        match self {
            Refusal::NoCommand => 1,
            Refusal::NoOperands => 2,
            Refusal::Stranger => 3,
            Refusal::NotNow => 4,
            Refusal::Missing => 5,
            Refusal::OutOfRange => 6,
            Refusal::NotOwn => 7,
            Refusal::NoPlace => 8,
            Refusal::NoTry => 9,
            Refusal::Sheet(broken) => broken.number(),
        }
    }

    /// The two numbers of its place, 0 and 0 where the question names none.
    pub fn place(self) -> (u16, u16)
        ensures { result ≡ refusal_place self }
    {
        match self {
            Refusal::Sheet(broken) => broken.place(),
            _ => (0, 0),
        }
    }
}

impl From<Broken> for Refusal {
    ghost from_gives = { λ broken r. r ≡ Sheet broken };

    fn from(broken: Broken) -> Refusal {
        Refusal::Sheet(broken)
    }
}

/// Why something cannot be added to a network or to a list of orders, in the order in which the questions are put.
#[derive(Clone, Copy, PartialEq, Eq, Debug)]
pub enum Fault {
    /// It names a zone or a line that does not exist.
    Missing,
    /// A number is out of range.
    OutOfRange,
    /// No place is left.
    NoPlace,
}

impl From<Fault> for Refusal {
    ghost from_gives = { λ fault r. r ≡ refusal_of fault };

    fn from(fault: Fault) -> Refusal {
        match fault {
            Fault::Missing => Refusal::Missing,
            Fault::OutOfRange => Refusal::OutOfRange,
            Fault::NoPlace => Refusal::NoPlace,
        }
    }
}

/// One of the two houses that share the pool.
#[derive(Clone, Copy, PartialEq, Eq, Debug)]
pub enum House {
    Zero,
    One,
}

/// There are two houses; any other number is a stranger's.
impl TryFrom<u8> for House {
    type Error = Refusal;

    ghost try_from_gives = { HouseNumbered };

    fn try_from(number: u8) -> Result<House, Refusal> {
        match number {
            0 => Ok(House::Zero),
            1 => Ok(House::One),
            _ => Err(Refusal::Stranger),
        }
    }
}

impl From<House> for u8 {
    ghost from_gives = { λ house number. number ≡ house_number house };

    fn from(house: House) -> u8 {
        match house {
            House::Zero => 0,
            House::One => 1,
        }
    }
}
