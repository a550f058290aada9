//! From a command of the stream to a call of the box.

ghost use Rattle.std.specs.Prelude.{◌≡◌};
ghost use Rattle.hours.specs.Calls.{call_of};

use history::{Call, Filling, Wish};
use kinds::{TransferWish, ZoneWish};
use stream::Command;

/// The call that a command makes; none for one of the network block.
// The three entries of a sheet have other fields each: a literal inside the call would be no shorter.
pub fn call_of(command: &Command) -> Option<Call<ZoneWish, ZoneWish, TransferWish>>
    ensures { result ≡ call_of command.now }
{
    let call = match *command {
        Command::Offer {
            house,
            zone,
            price,
            quantity,
        } => {
            let wish = Wish::First(ZoneWish {
                zone,
                price,
                quantity,
            });
            Call::Enter { house, wish }
        }
        Command::Bid {
            house,
            zone,
            price,
            quantity,
        } => {
            let wish = Wish::Second(ZoneWish {
                zone,
                price,
                quantity,
            });
            Call::Enter { house, wish }
        }
        Command::Transfer {
            house,
            first,
            second,
            price,
            quantity,
        } => {
            let wish = Wish::Third(TransferWish {
                first,
                second,
                price,
                quantity,
            });
            Call::Enter { house, wish }
        }
        Command::Withdraw {
            house,
            list,
            number,
        } => Call::Withdraw {
            house,
            list,
            number,
        },
        Command::Close { house } => Call::Close { house },
        Command::Try { house } => Call::Try { house },
        Command::Settle { house } => Call::Settle { house },
        Command::Void { house } => Call::Void { house },
        Command::Quantity {
            house,
            list,
            number,
            quantity,
        } => {
            let filling = Filling::Quantity {
                list,
                number,
                kwh: quantity,
            };
            Call::Fill { house, filling }
        }
        Command::Lambda { house, lambda } => {
            let filling = Filling::Lambda { lambda };
            Call::Fill { house, filling }
        }
        Command::ShadowPrice { house, line, price } => {
            let filling = Filling::ShadowPrice { line, price };
            Call::Fill { house, filling }
        }
        _ => return None,
    };
    Some(call)
}
