//! Packets, their fields and the tests on them; ports; the bounded list that holds them; the numbered refusals.
#![tactic(auto)]

mod bounded;
mod fault;
mod field;
mod packet;
mod ports;
mod test;

pub use bounded::{Bounded, Full};
pub use fault::{BuilderCause, Call, Fault, HostCause, ReaderCause, SwitchCause, TextPlace};
pub use field::{Field, IP, TCP};
pub use packet::Packet;
pub use ports::{PortError, Ports};
pub use test::Test;
