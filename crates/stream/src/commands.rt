//! The commands of a stream.

ghost use Rattle.std.specs.Prelude.{◌≡◌};
ghost use Rattle.stream.specs.Spelling.{letter_of, house_of};

use auction::bounds::MOST_ZONES;

/// A command with its operands. The first seven make the network block, the others belong to a house.
#[derive(Clone, Copy, Debug, PartialEq, Eq)]
pub enum Command {
    /// `Z`: begins a network that is a tree of so many zones.
    Tree {
        zones: u8,
    },
    /// `Y`: begins a network that is a table of lines over so many zones.
    Table {
        zones: u8,
    },
    /// `K`: joins the next zone of a tree to its parent, with a limit in each direction.
    Link {
        parent: u8,
        to_parent: u32,
        to_child: u32,
    },
    /// `R`: a line of a table.
    // Two fields, as the operands of every command: network::Row has checked bounds, and these are not checked yet.
    Row {
        limit: u32,
        sensitivities: [i16; MOST_ZONES],
    },
    /// `V`: a monitored line on top of the network.
    Monitor {
        limit: u32,
        sensitivities: [i16; MOST_ZONES],
    },
    /// `H`: holds back some kWh of a line's limit.
    HoldBack {
        line: u8,
        kwh: u32,
    },
    /// `G`: ends the network block and opens the first hour.
    Open,
    /// `O`: offers energy in a zone.
    Offer {
        house: u8,
        zone: u8,
        price: u32,
        quantity: u32,
    },
    /// `B`: bids for energy in a zone.
    Bid {
        house: u8,
        zone: u8,
        price: u32,
        quantity: u32,
    },
    /// `T`: takes energy from the first zone to the second.
    Transfer {
        house: u8,
        first: u8,
        second: u8,
        price: u32,
        quantity: u32,
    },
    /// `W`: withdraws an order.
    Withdraw {
        house: u8,
        list: u8,
        number: u16,
    },
    /// `C`: closes the hour's books.
    Close {
        house: u8,
    },
    /// `Q`: tries the sheet.
    Try {
        house: u8,
    },
    /// `S`: settles the hour.
    Settle {
        house: u8,
    },
    /// `X`: voids the hour.
    Void {
        house: u8,
    },
    /// `A`: writes an order's quantity into the sheet.
    Quantity {
        house: u8,
        list: u8,
        number: u16,
        quantity: u32,
    },
    /// `L`: writes the reference price into the sheet.
    Lambda {
        house: u8,
        lambda: i32,
    },
    /// `M`: writes a line's shadow price into the sheet.
    ShadowPrice {
        house: u8,
        line: u8,
        price: u32,
    },
}

impl Command {
    /// The letter in ASCII that the command begins with.
    // A letter stays a byte, as the stream has it: an enum of the letters would be a second list of the same commands.
    pub fn letter(&self) -> u8
        ensures { result ≡ letter_of self.now }
    {
        match self {
            Command::Tree { .. } => b'Z',
            Command::Table { .. } => b'Y',
            Command::Link { .. } => b'K',
            Command::Row { .. } => b'R',
            Command::Monitor { .. } => b'V',
            Command::HoldBack { .. } => b'H',
            Command::Open => b'G',
            Command::Offer { .. } => b'O',
            Command::Bid { .. } => b'B',
            Command::Transfer { .. } => b'T',
            Command::Withdraw { .. } => b'W',
            Command::Close { .. } => b'C',
            Command::Try { .. } => b'Q',
            Command::Settle { .. } => b'S',
            Command::Void { .. } => b'X',
            Command::Quantity { .. } => b'A',
            Command::Lambda { .. } => b'L',
            Command::ShadowPrice { .. } => b'M',
        }
    }

    /// Whose command it is; none for one of the network block.
    pub fn house(&self) -> Option<u8>
        ensures { result ≡ house_of self.now }
    {
        match *self {
            Command::Tree { .. }
            | Command::Table { .. }
            | Command::Link { .. }
            | Command::Row { .. }
            | Command::Monitor { .. }
            | Command::HoldBack { .. }
            | Command::Open => None,
            Command::Offer { house, .. }
            | Command::Bid { house, .. }
            | Command::Transfer { house, .. }
            | Command::Withdraw { house, .. }
            | Command::Close { house }
            | Command::Try { house }
            | Command::Settle { house }
            | Command::Void { house }
            | Command::Quantity { house, .. }
            | Command::Lambda { house, .. }
            | Command::ShadowPrice { house, .. } => Some(house),
        }
    }
}
