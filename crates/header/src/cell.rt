ghost use Rattle.std.specs.Prelude.{◌≡◌};
ghost use Rattle.header.specs.Cells.{Cell as Cells};
ghost use Rattle.header.specs.CellLaws.{CellLaws};

use packet::Field;

/// What a pattern says of one field, by itself.
pub trait Cell: Copy {
    /// What such cells say of numbers.
    ghost cell: { Cells Self };

    /// Whether the cell takes a number of its field.
    fn takes(self, field: Field, number: u64) -> bool
        ensures { result ≡ cell.takes field self number };

    /// Whether some number of the field is taken by both.
    fn agrees(self, field: Field, other: Self) -> bool
        ensures { result ≡ cell.agree field self other };

    /// The cell of the numbers that both take, where they agree.
    fn both(self, field: Field, other: Self) -> Self
        ensures { result ≡ cell.both field self other };

    /// Whether the cell takes whatever the other takes.
    fn covers(self, field: Field, other: Self) -> bool
        ensures { result ≡ cell.covers field self other };

    /// The laws of a cell, which each type of cells proves.
    ghost keeps: { CellLaws cell };
}
