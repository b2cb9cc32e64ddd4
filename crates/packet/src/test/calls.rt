ghost use Rattle.std.specs.Prelude.{◌≡◌};
ghost use Rattle.packet.specs.Tests.{tested, true_of};

use super::Test;
use crate::field::Field;
use crate::packet::Packet;

impl Test {
    /// The test of the first `length` bits of a field for those of `value`, or none where the field has no room for them.
    pub fn new(field: Field, value: u64, length: u8) -> Option<Test>
        ensures { result ≡ tested field value length }
    {
        let width = field.width();
        if length > width || value >= 1 << width {
            return None;
        }
        Some(Test {
            field,
            value,
            length,
        })
    }

    /// Whether the packet has the field, with the value's first bits.
    pub fn holds(&self, packet: &Packet) -> bool
        ensures { result ≡ true_of self.now packet.now }
    {
        let past = self.field.width() - self.length;
        packet.has(self.field) & (packet.number(self.field) >> past == self.value >> past)
    }
}
