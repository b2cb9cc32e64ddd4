ghost use Rattle.std.specs.Prelude.{◌≡◌, ◌<◌, [], length};
ghost use Rattle.packet.specs.Items.{items_of};
ghost use Rattle.packet.specs.PortLists.{placed, Added};
ghost use Rattle.packet.specs.Written.{written};

use super::{PortError, Ports};
use crate::bounded::Bounded;

/// How many ports a list has room for.
const ROOM: usize = 8;

/// The highest port of a switch.
const HIGHEST: u8 = 48;

// One turn for each port, the lower of two put down: `partition_point` and a rotation would want a list lent to be changed.
/// The list with one port more, at its place.
// Not a `Result` for its caller to turn into one of its own: `add`, which knows whether there is room, took longer with one.
fn with_port(list: &Bounded<u8, 8>, port: u8) -> Bounded<u8, 8>
    requires { length (items_of list.now) < 8 }
    ensures { items_of result ≡ placed port (items_of list.now) }
{
    let mut grown = Bounded::new(0);
    let mut high = port;
    for here in list.as_slice() {
        grown.push((*here).min(high)).unwrap();
        high = (*here).max(high);
    }
    grown.push(high).unwrap();
    grown
}

impl Ports {
    /// No ports.
    pub fn none() -> Ports
        ensures { written result ≡ [] }
    {
        Ports {
            list: Bounded::new(0),
        }
    }

    /// Adds a port at its place; refused where it is not 1 to 48, or where eight are there.
    pub fn add(&mut self, port: u8) -> Result<(), PortError>
        ensures { Added (written self.old) port result (written self.new) }
    {
        if port == 0 || port > HIGHEST {
            return Err(PortError::NoPort);
        }
        if self.list.len() == ROOM {
            return Err(PortError::Full);
        }
        let grown = with_port(&self.list, port);
        self.list = grown;
        Ok(())
    }

    /// The ports in rising order.
    pub fn as_slice(&self) -> &[u8]
        ensures { result.now ≡ written self.now }
    {
        self.list.as_slice()
    }
}
