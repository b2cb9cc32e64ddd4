ghost use Rattle.std.specs.Prelude.{◌≡◌, true};
ghost use Rattle.packet.specs.Fields.{lawful, row};

mod calls;

/// A packet: eight numbers, each within its width, and 0 where the packet has no such number.
#[derive(Clone, Copy, PartialEq, Eq, Debug)]
pub struct Packet {
    dlsrc: u64,
    dldst: u64,
    dltyp: u16,
    nwsrc: u32,
    nwdst: u32,
    nwproto: u8,
    tpsrc: u16,
    tpdst: u16,
    ghost sound: { lawful (row dlsrc dldst dltyp nwsrc nwdst nwproto tpsrc tpdst) ≡ true },
}
