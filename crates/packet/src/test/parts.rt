ghost use Rattle.std.specs.Prelude.{◌≡◌};

use super::Test;
use crate::field::Field;

// Getters, since the ghost field asks that the fields be private.
impl Test {
    /// The field that the test looks at.
    pub fn field(&self) -> Field
        ensures { result ≡ self.now.field }
    {
        self.field
    }

    /// The value that it looks for.
    pub fn value(&self) -> u64
        ensures { result ≡ self.now.value }
    {
        self.value
    }

    /// How many first bits of the value count.
    pub fn length(&self) -> u8
        ensures { result ≡ self.now.length }
    {
        self.length
    }
}
