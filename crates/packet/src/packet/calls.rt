ghost use Rattle.std.specs.Prelude.{◌≡◌};
ghost use Rattle.packet.specs.Fields.{exists, in_order, lawful, row, sound};
ghost use Rattle.packet.specs.Making.{Made};
ghost use Rattle.packet.specs.Packets.{number};

use super::Packet;
use crate::fault::{Call, Fault, HostCause};
use crate::field::{Field, IP, TCP};

/// Whether a packet of these dltyp and nwproto has a field.
fn exists_in(field: Field, dltyp: u64, nwproto: u64) -> bool
    ensures { result ≡ exists (row 0 0 dltyp 0 0 nwproto 0 0) field }
{
    let network = dltyp == IP;
    let transport = network & (nwproto == TCP);
    match field {
        Field::DlSrc | Field::DlDst | Field::DlTyp => true,
        Field::NwSrc | Field::NwDst | Field::NwProto => network,
        Field::TpSrc | Field::TpDst => transport,
    }
}

/// Whether a field's number fits its width, and is 0 where the field does not exist.
fn is_sound(given: &[u64; 8], field: Field) -> bool
    ensures { result ≡ sound (in_order given.now) field }
{
    let [_, _, dltyp, _, _, nwproto, _, _] = *given;
    let number = given[field.place()];
    (number < 1 << field.width()) & (exists_in(field, dltyp, nwproto) | (number == 0))
}

/// Whether eight numbers, in the order of the fields, keep the rules of a packet.
fn rules_kept(given: &[u64; 8]) -> bool
    ensures { result ≡ lawful (in_order given.now) }
{
    Field::ALL.iter().all(|field| is_sound(given, *field))
}

impl Packet {
    /// The packet of eight numbers in the order of the fields; refused, by number 11, exactly where they break its rules.
    pub fn new(given: &[u64; 8]) -> Result<Packet, Fault>
        ensures { Made (in_order given.now) result }
    {
        if !rules_kept(given) {
            return Err(Fault::Host {
                cause: HostCause::Numbers,
                call: Call::Packet,
            });
        }
        let [dlsrc, dldst, dltyp, nwsrc, nwdst, nwproto, tpsrc, tpdst] = *given;
        // Casts, since the rules say that they lose nothing; a `try_from` of each would want an `unwrap`.
        Ok(Packet {
            dlsrc,
            dldst,
            dltyp: dltyp as u16,
            nwsrc: nwsrc as u32,
            nwdst: nwdst as u32,
            nwproto: nwproto as u8,
            tpsrc: tpsrc as u16,
            tpdst: tpdst as u16,
        })
    }

    /// The packet's number at a field.
    pub fn number(&self, field: Field) -> u64
        ensures { result ≡ number self.now field }
    {
        match field {
            Field::DlSrc => self.dlsrc,
            Field::DlDst => self.dldst,
            Field::DlTyp => u64::from(self.dltyp),
            Field::NwSrc => u64::from(self.nwsrc),
            Field::NwDst => u64::from(self.nwdst),
            Field::NwProto => u64::from(self.nwproto),
            Field::TpSrc => u64::from(self.tpsrc),
            Field::TpDst => u64::from(self.tpdst),
        }
    }

    /// Whether the packet has a number at a field.
    pub fn has(&self, field: Field) -> bool
        ensures { result ≡ exists (number self.now) field }
    {
        exists_in(field, u64::from(self.dltyp), u64::from(self.nwproto))
    }
}
