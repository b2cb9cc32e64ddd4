//! What the program is asked and what it answers, as text: arguments, packets as people type them, policy files read
//! as one text, and the lines of each command.
#![tactic(auto)]
// The allocator goes into each call that allocates (`heap: Global`): the library hands it down likewise.

mod answers;
mod arguments;
mod failure;
mod packets;
mod sources;

pub use answers::{HELP, check, ports};
pub use arguments::{Command, command_of};
pub use failure::Failure;
pub use packets::packet_of;
pub use sources::Sources;
