//! What the box holds.

use filling::Sheets;
use ledger::Ledger;
use orders::Book;

/// A network, the orders of the present hour, the sheets of the two houses, and the ledger.
#[derive(Drop)]
pub struct ClearingBox<N, X, Y, W> {
    pub(crate) network: N,
    pub(crate) book: Book<X, Y, W>,
    pub(crate) sheets: Sheets,
    pub(crate) ledger: Ledger,
}
