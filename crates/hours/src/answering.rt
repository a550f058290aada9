//! One command after the box was opened: the answer, and its line.

ghost use Rattle.std.specs.Prelude.{◌≡◌, ◌++◌, OnOk, string_bytes};
ghost use Rattle.auction.specs.declared.House.TheVariants.{Zero, One};
ghost use Rattle.stream.specs.Spelling.{letter_of};
ghost use Rattle.clearing.specs.Views.{situation};
ghost use Rattle.hours.specs.Transcripts.{line_of};
ghost use Rattle.hours.specs.Answering.{AnswersOne};

use crate::calls::call_of;
use auction::{House, PerHouse, Refusal};
use clearing::ClearingBox;
use history::Reply;
use kinds::{TransferWish, ZoneWish};
use network::Network;
use orders::OrderList;
use reading::{Dialogue, Placed};
use report::Outcome;
use std::alloc::AllocError;
use stream::Command;

/// The box's answer to a command; one of the network block is refused.
pub(crate) fn answer<
    N: Network,
    X: OrderList<Wish = ZoneWish>,
    Y: OrderList<Wish = ZoneWish>,
    W: OrderList<Wish = TransferWish>,
>(clearing: &mut ClearingBox<N, X, Y, W>, command: &Command) -> Result<Reply, Refusal>
    ensures { AnswersOne N.Network X.OrderList Y.OrderList W.OrderList command.now clearing.old result clearing.new }
{
    let call = call_of(command).ok_or(Refusal::NotNow)?;
    clearing.call(call)
}

/// Adds the line of an answer, with both accounts as the box has them now.
pub(crate) fn say<N: Network, X: OrderList, Y: OrderList, W: OrderList>(
    dialogue: &mut Dialogue<'_>,
    clearing: &ClearingBox<N, X, Y, W>,
    placed: &Placed,
    answer: Result<Reply, Refusal>,
) -> Result<(), AllocError>
    ensures kept { dialogue.new.reader ≡ dialogue.old.reader }
    ensures said { OnOk result (string_bytes dialogue.new.lines ≡ string_bytes dialogue.old.lines ++ line_of placed.now.offset (letter_of placed.now.command) answer ((situation X.OrderList Y.OrderList W.OrderList clearing.now).account Zero) ((situation X.OrderList Y.OrderList W.OrderList clearing.now).account One)) }
{
    let zero = clearing.account(House::Zero);
    let one = clearing.account(House::One);
    let accounts = PerHouse { zero, one };
    let outcome = answer.map(|reply| match reply {
        Reply::Done => Outcome::Taken,
        Reply::Accepted { welfare, rent } => Outcome::Accepted {
            welfare,
            rent,
            accounts,
        },
    });
    dialogue.say(placed, outcome)
}
