ghost use Rattle.header.specs.Frames.{exact, frames};
ghost use Rattle.header.specs.Exact.{exact_laws};
ghost use Rattle.header.specs.FrameLaws.{laid};

use crate::cell::Cell;
use crate::pattern::CellPattern;
use packet::{Field, IP, TCP, Test};

/// A pattern of the frame kind: for each field, in their order, the number that it must have, or none where any number does.
#[derive(Clone, Copy, PartialEq, Eq, Debug)]
pub struct FramePattern {
    pub cells: [Option<u64>; 8],
}

/// The number that a field must have, or none where any number does.
impl Cell for Option<u64> {
    ghost cell = { exact };

    ghost keeps = { exact_laws };

    fn takes(self, _field: Field, number: u64) -> bool {
        self.is_none_or(|stated| stated == number)
    }

    fn agrees(self, field: Field, other: Option<u64>) -> bool {
        self.is_none_or(|stated| other.takes(field, stated))
    }

    fn both(self, _field: Field, other: Option<u64>) -> Option<u64> {
        self.or(other)
    }

    fn covers(self, _field: Field, other: Option<u64>) -> bool {
        self.is_none() || self == other
    }
}

/// Tests of full length on every field; a pattern states whole numbers.
impl CellPattern for FramePattern {
    type Cell = Option<u64>;

    ghost layout = { frames };

    ghost laid = { laid };

    fn carried(test: &Test) -> bool {
        test.length() == test.field().width()
    }

    fn pattern(test: &Test) -> FramePattern {
        let own = Some(test.value());
        // What a field needs to exist: a list of needs would want a type of its own for these two.
        let (ip, tcp) = (Some(IP), Some(TCP));
        let cells = match test.field() {
            Field::DlSrc => [own, None, None, None, None, None, None, None],
            Field::DlDst => [None, own, None, None, None, None, None, None],
            Field::DlTyp => [None, None, own, None, None, None, None, None],
            Field::NwSrc => [None, None, ip, own, None, None, None, None],
            Field::NwDst => [None, None, ip, None, own, None, None, None],
            Field::NwProto => [None, None, ip, None, None, own, None, None],
            Field::TpSrc => [None, None, ip, None, None, tcp, own, None],
            Field::TpDst => [None, None, ip, None, None, tcp, None, own],
        };
        FramePattern { cells }
    }

    fn blank() -> FramePattern {
        FramePattern { cells: [None; 8] }
    }

    fn at(&self, field: Field) -> Option<u64> {
        self.cells[field.place()]
    }

    fn join(&self, other: &FramePattern) -> FramePattern {
        FramePattern {
            cells: Field::ALL.map(|field| self.at(field).both(field, other.at(field))),
        }
    }
}
