ghost use Rattle.std.specs.Prelude.{◌≡◌, ◌==◌};
ghost use Rattle.packet.specs.Fields.{width};
ghost use Rattle.packet.specs.Tests.{first_bits};
ghost use Rattle.header.specs.Routes.{prefixes, routes, own};
ghost use Rattle.header.specs.Prefixes.{prefix_laws};
ghost use Rattle.header.specs.RouteLaws.{laid};

use crate::cell::Cell;
use crate::pattern::CellPattern;
use packet::{Field, IP, Packet, Test};

/// The first bits of a network address: those of `value`, to the length.
#[derive(Clone, Copy, PartialEq, Eq, Debug)]
pub struct Prefix {
    pub value: u32,
    pub length: u8,
}

/// A pattern of the route kind: whether the packet has to be IP, and how each of its addresses begins.
#[derive(Clone, Copy, PartialEq, Eq, Debug)]
pub struct RoutePattern {
    // A flag, since of dltyp nothing but IP can be asked.
    pub network: bool,
    pub nwsrc: Prefix,
    pub nwdst: Prefix,
}

/// The prefix of every address.
const ANY: Prefix = Prefix {
    value: 0,
    length: 0,
};

/// The dltyp of IP packets.
// A cast, since a constant's value calls no function.
const NETWORK: Prefix = Prefix {
    value: IP as u32,
    length: 16,
};

/// The pattern that states nothing.
const ALL: RoutePattern = RoutePattern {
    network: false,
    nwsrc: ANY,
    nwdst: ANY,
};

impl Prefix {
    /// The prefix that a test of a network address looks for.
    fn of(test: &Test) -> Prefix
        requires { width test.now.field ≡ 32 }
        ensures { result ≡ own test.now }
    {
        // An address has 32 bits: the cast loses none.
        Prefix {
            value: test.value() as u32,
            length: test.length(),
        }
    }
}

/// Whether two numbers of a field have the same first bits.
fn same_bits(field: Field, a: u64, b: u64, length: u8) -> bool
    ensures { result ≡ (first_bits field length a == first_bits field length b) }
{
    let past = field.width().saturating_sub(length);
    a >> past == b >> past
}

/// The first bits that a number must have, as an address does.
impl Cell for Prefix {
    ghost cell = { prefixes };

    ghost keeps = { prefix_laws };

    fn takes(self, field: Field, number: u64) -> bool {
        same_bits(field, number, u64::from(self.value), self.length)
    }

    fn agrees(self, field: Field, other: Prefix) -> bool {
        same_bits(
            field,
            u64::from(self.value),
            u64::from(other.value),
            self.length.min(other.length),
        )
    }

    fn both(self, _field: Field, other: Prefix) -> Prefix {
        if self.length < other.length {
            other
        } else {
            self
        }
    }

    fn covers(self, field: Field, other: Prefix) -> bool {
        self.length <= other.length && self.takes(field, u64::from(other.value))
    }
}

/// Tests of any length on the two network addresses.
impl CellPattern for RoutePattern {
    type Cell = Prefix;

    ghost layout = { routes };

    ghost laid = { laid };

    fn carried(test: &Test) -> bool {
        matches!(test.field(), Field::NwSrc | Field::NwDst)
    }

    fn pattern(test: &Test) -> RoutePattern {
        let network = RoutePattern {
            network: true,
            ..ALL
        };
        match test.field() {
            Field::NwSrc => RoutePattern {
                nwsrc: Prefix::of(test),
                ..network
            },
            Field::NwDst => RoutePattern {
                nwdst: Prefix::of(test),
                ..network
            },
            _ => ALL,
        }
    }

    fn blank() -> RoutePattern {
        ALL
    }

    fn at(&self, field: Field) -> Prefix {
        match field {
            Field::DlTyp if self.network => NETWORK,
            Field::NwSrc => self.nwsrc,
            Field::NwDst => self.nwdst,
            _ => ANY,
        }
    }

    fn join(&self, other: &RoutePattern) -> RoutePattern {
        RoutePattern {
            network: self.network | other.network,
            nwsrc: self.nwsrc.both(Field::NwSrc, other.nwsrc),
            nwdst: self.nwdst.both(Field::NwDst, other.nwdst),
        }
    }

    // Three tests, of what a pattern may ask; the chains over all fields would go through five more.
    fn takes_each(&self, packet: &Packet) -> bool {
        (!self.network | (packet.number(Field::DlTyp) == IP))
            & self.nwsrc.takes(Field::NwSrc, packet.number(Field::NwSrc))
            & self.nwdst.takes(Field::NwDst, packet.number(Field::NwDst))
    }

    fn agrees_each(&self, other: &RoutePattern) -> bool {
        self.nwsrc.agrees(Field::NwSrc, other.nwsrc) & self.nwdst.agrees(Field::NwDst, other.nwdst)
    }

    fn covers_each(&self, other: &RoutePattern) -> bool {
        (!self.network | other.network)
            && self.nwsrc.covers(Field::NwSrc, other.nwsrc)
            && self.nwdst.covers(Field::NwDst, other.nwdst)
    }
}
