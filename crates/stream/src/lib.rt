//! The stream of commands: how each is spelled (see specs/), and a reader that cuts it into items.
#![tactic(auto)]

mod commands;
mod faults;
mod lengths;
mod reader;

pub use auction::bounds::MOST_ZONES as SENSITIVITIES;
pub use commands::Command;
pub use lengths::{letters_stand, operand_length};
pub use reader::{Item, MOST_BYTES, ReadFault, Reader};
