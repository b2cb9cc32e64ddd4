//! Head words.
ghost use Rattle.std.specs.Prelude.{◌≡◌};
ghost use Rattle.text.specs.Heads.{named_field};

use packet::Field;

/// The field that a word names.
pub fn field_of(word: &[u8]) -> Option<Field>
    ensures { result ≡ named_field word.now }
{
    match word {
        b"dlsrc" => Some(Field::DlSrc),
        b"dldst" => Some(Field::DlDst),
        b"dltyp" => Some(Field::DlTyp),
        b"nwsrc" => Some(Field::NwSrc),
        b"nwdst" => Some(Field::NwDst),
        b"nwproto" => Some(Field::NwProto),
        b"tpsrc" => Some(Field::TpSrc),
        b"tpdst" => Some(Field::TpDst),
        _ => None,
    }
}
