ghost use Rattle.std.specs.Prelude.{◌≡◌, true};
ghost use Rattle.packet.specs.Fields.{fits};

use crate::field::Field;

mod calls;
mod parts;

/// A test of the first `length` bits of a field: a value that fits the field's width, and a length of at most that width.
#[derive(Clone, Copy, PartialEq, Eq, Debug)]
pub struct Test {
    field: Field,
    value: u64,
    length: u8,
    ghost fit: { fits field value length ≡ true },
}
