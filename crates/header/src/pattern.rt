ghost use Rattle.std.specs.Prelude.{◌≡◌};
ghost use Rattle.packet.specs.Packets.{number};
ghost use Rattle.header.specs.Cells.{agrees_all, covers_all, hits_all};
ghost use Rattle.header.specs.Layouts.{Layout, kind_of};
ghost use Rattle.header.specs.KindLaws.{Laid, kind_laws};

use crate::cell::Cell;
use crate::kind::HeaderKind;
use packet::{Field, Packet, Test};

/// A pattern with a cell for each field.
pub trait CellPattern: Copy {
    /// What a pattern says of one field.
    type Cell: Cell;

    /// How patterns, and the tests that have one, look as cells.
    ghost layout: { Layout Self Self.Cell };

    /// Whether a test has a pattern.
    fn carried(test: &Test) -> bool
        ensures { result ≡ layout.carried test.now };

    /// The pattern of a test.
    fn pattern(test: &Test) -> Self
        ensures { result ≡ layout.pattern test.now };

    /// The pattern that asks nothing.
    fn blank() -> Self
        ensures { result ≡ layout.all };

    /// What the pattern says of a field.
    fn at(&self, field: Field) -> Self::Cell
        ensures { result ≡ layout.at self.now field };

    /// The pattern that asks what either does.
    fn join(&self, other: &Self) -> Self
        ensures { result ≡ layout.join self.now other.now };

    // The next three go over all fields; a kind that asks of a few may write them with fewer tests.
    /// Whether each number of a packet is taken.
    fn takes_each(&self, packet: &Packet) -> bool
        ensures { result ≡ hits_all Self.Cell.cell (layout.at self.now) (number packet.now) }
    {
        Field::ALL.iter().all(|field| self.at(*field).takes(*field, packet.number(*field)))
    }

    /// Whether the cells of each field agree.
    fn agrees_each(&self, other: &Self) -> bool
        ensures { result ≡ agrees_all Self.Cell.cell (layout.at self.now) (layout.at other.now) }
    {
        Field::ALL
            .iter()
            .all(|field| self.at(*field).agrees(*field, other.at(*field)))
    }

    /// Whether each cell covers the other pattern's.
    fn covers_each(&self, other: &Self) -> bool
        ensures { result ≡ covers_all Self.Cell.cell (layout.at self.now) (layout.at other.now) }
    {
        Field::ALL
            .iter()
            .all(|field| self.at(*field).covers(*field, other.at(*field)))
    }

    /// What each kind of such patterns proves.
    ghost laid: { Laid Self.Cell.cell layout };
}

/// Field by field: hit where each number is taken, met where all cells agree, covered where all cells are.
impl<P: CellPattern> HeaderKind for P {
    ghost kind = { kind_of P.Cell.cell P.layout };

    ghost keeps = { kind_laws P.Cell.cell P.layout P.Cell.keeps P.laid };

    fn carries(test: &Test) -> bool {
        P::carried(test)
    }

    fn of_test(test: &Test) -> P {
        P::pattern(test)
    }

    fn all() -> P {
        P::blank()
    }

    fn hits(&self, packet: &Packet) -> bool {
        self.takes_each(packet)
    }

    fn meet(&self, other: &P) -> Option<P> {
        self.agrees_each(other).then(|| self.join(other))
    }

    fn covers(&self, other: &P) -> bool {
        self.covers_each(other)
    }
}
