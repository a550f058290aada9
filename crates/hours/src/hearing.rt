//! All commands after the box was opened.

ghost use Rattle.std.specs.Prelude.{OnOk, string_bytes};
ghost use Rattle.clearing.specs.Views.{kinds_of};
ghost use Rattle.hours.specs.Transcripts.{HoursAnswered};

use crate::answering::{answer, say};
use clearing::ClearingBox;
use kinds::{TransferWish, ZoneWish};
use network::Network;
use orders::OrderList;
use reading::Dialogue;
use std::alloc::AllocError;

/// Opens a box over the network, and answers each command of the stream from here to its end, or to a fault.
pub fn hear_hours<
    N: Network + Drop,
    X: OrderList<Wish = ZoneWish> + Drop,
    Y: OrderList<Wish = ZoneWish> + Drop,
    W: OrderList<Wish = TransferWish> + Drop,
>(dialogue: &mut Dialogue<'_>, network: N, first: X, second: Y, third: W) -> Result<(), AllocError>
    ensures { OnOk result (HoursAnswered (kinds_of X.OrderList Y.OrderList W.OrderList) (N.Network.grid network) dialogue.old.reader.bytes.now dialogue.old.reader.at (string_bytes dialogue.old.lines) (string_bytes dialogue.new.lines)) }
{
    let mut clearing = ClearingBox::open(network, first, second, third);
    'commands: while let Some(placed) = dialogue.next()? {
        let answered = answer(&mut clearing, &placed.command);
        say(dialogue, &clearing, &placed, answered)?;
    }
    Ok(())
}
