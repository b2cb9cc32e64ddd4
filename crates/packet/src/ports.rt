ghost use Rattle.std.specs.Prelude.{◌≡◌, true};
ghost use Rattle.packet.specs.Items.{items_of};
ghost use Rattle.packet.specs.PortLists.{are_ports};

use crate::bounded::Bounded;

mod list;

/// Why a port is not added.
#[derive(Clone, Copy, PartialEq, Eq, Debug)]
pub enum PortError {
    /// The number is not 1 to 48.
    NoPort,
    /// Eight ports are there.
    Full,
}

// No `Model` and no derived `==`, as `Bounded` has none: a `Copy` type's view has to give its fields back, and `==` would
// read the unused places.
/// At most eight ports, 1 to 48, in rising order; a port that stands there twice gets two copies.
#[derive(Clone, Copy)]
pub struct Ports {
    list: Bounded<u8, 8>,
    ghost right: { are_ports (items_of list) ≡ true },
}
