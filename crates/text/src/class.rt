//! What each byte of a policy text is.
ghost use Rattle.std.specs.Prelude.{◌≡◌};
ghost use Rattle.text.specs.Bytes.{byte_class};
ghost use Rattle.text.specs.Text.{in_word};

/// The classes of bytes. Letters, digits, points and strokes stand in words.
#[derive(Clone, Copy, PartialEq, Eq, Debug)]
pub enum Class {
    Opening,
    Closing,
    Space,
    LineEnd,
    Letter,
    Digit,
    Point,
    Stroke,
    Other,
}

impl Class {
    /// Whether a byte of the class stands in a word.
    pub fn stands_in_word(self) -> bool
        ensures { result ≡ in_word self }
    {
        matches!(
            self,
            Class::Letter | Class::Digit | Class::Point | Class::Stroke
        )
    }
}

impl From<u8> for Class {
    ghost from_gives = { λ b r. r ≡ byte_class b };

    fn from(b: u8) -> Class {
        match char::from(b) {
            '(' => Class::Opening,
            ')' => Class::Closing,
            ' ' => Class::Space,
            '\n' => Class::LineEnd,
            'a'..='z' => Class::Letter,
            '0'..='9' => Class::Digit,
            '.' => Class::Point,
            '/' => Class::Stroke,
            _ => Class::Other,
        }
    }
}
