//! A network of any shape, as a table of rows, one for each line. It may describe loops.
#![tactic(auto)]

mod lines;
mod made;
mod sheet;

pub use sheet::Table;
