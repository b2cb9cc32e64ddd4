//! The reader of policy texts.
#![tactic(auto)]

mod class;
mod due;
mod head;
mod reader;
mod state;
mod step;
#[cfg(test)]
mod tests;
mod value;

pub use head::field_of;
pub use reader::read;
pub use value::{number_of, value_of};
