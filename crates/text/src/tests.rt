//! The reader on examples.
use crate::{field_of, number_of, read, value_of};
use packet::{Fault, Field};
use policy::Policy;

// 22 forms: the 65th node is the last line's joining.
const JOINED: &[u8] =
    b"(send (any))\n(send (any))\n(send (any))\n(send (any))\n(send (any))\n(send (any))\n(send (any))\n(send (any))\n(send (any))\n(send (any))\n(send (any))\n(send (any))\n(send (any))\n(send (any))\n(send (any))\n(send (any))\n(send (any))\n(send (any))\n(send (any))\n(send (any))\n(send (any))\n(send (any))";

// 22 forms: the 65th node is the last line's own.
const OWN: &[u8] =
    b"(send (not (any)))\n(send (any))\n(send (any))\n(send (any))\n(send (any))\n(send (any))\n(send (any))\n(send (any))\n(send (any))\n(send (any))\n(send (any))\n(send (any))\n(send (any))\n(send (any))\n(send (any))\n(send (any))\n(send (any))\n(send (any))\n(send (any))\n(send (any))\n(send (any))\n(send (any))";

fn refused(text: &[u8], number: u8, line: usize, byte: usize) -> bool {
    let mut place = Policy::empty();
    read(&mut place, text).is_err_and(|fault| fault.number() == number
        && stands_at(fault, line, byte))
}

fn stands_at(fault: Fault, line: usize, byte: usize) -> bool {
    matches!(fault, Fault::Reader { place, .. } if place.line == line && place.byte == byte)
}

// How many nodes a text makes, or none where it is refused.
fn count(text: &[u8]) -> Option<usize> {
    let mut place = Policy::empty();
    read(&mut place, text).ok().map(|()| place.nodes().len())
}

// Whether the word writes that value of a field.
fn gives(field: &[u8], word: &[u8], value: u64) -> bool {
    field_of(field).and_then(|f| value_of(f, word)) == Some(value)
}

// Whether the word writes no full value of a field.
fn bad(field: Field, word: &[u8]) -> bool {
    value_of(field, word).is_none()
}

#[test]
fn ports(rt: HostRuntime) {
    assert!(rt; refused(b"(send (any) 0)", 4, 1, 12));
    assert!(rt; refused(b"(send (any) 49)", 4, 1, 12));
    assert_eq!(rt; count(b"(send (any) 48 1)"), Some(2));
    assert!(rt; refused(b"(send (any) 1 2 3 4 5 6 7 8 99)", 3, 1, 28));
}

#[test]
fn lines(rt: HostRuntime) {
    assert_eq!(rt; count(b""), Some(2));
    assert_eq!(rt; count(b" \n\n"), Some(2));
    assert_eq!(rt; count(b"(send (any) 1)\n  \n(send(any)2)\n"), Some(5));
    assert!(rt; refused(b"(send (any) 1) (send (any) 2)", 3, 1, 15));
    assert!(rt; refused(b"\n(both (send (any))\n", 3, 2, 19));
    assert!(rt; refused(b"\n(both (send (any))", 3, 2, 19));
}

#[test]
fn heads_and_bytes(rt: HostRuntime) {
    assert!(rt; refused(b"\n(any)", 2, 2, 2));
    assert!(rt; refused(b"(se%nd", 2, 1, 1));
    assert!(rt; refused(b"()", 3, 1, 1));
    assert!(rt; refused(b"(send (any)\t1)", 1, 1, 11));
}

#[test]
fn depth(rt: HostRuntime) {
    assert_eq!(rt;
        count(
            b"(send (not (not (not (not (not (not (not (not (not (not (not (not (not (not (any))))))))))))))))",
        ),
        Some(16)
    );
    assert!(rt;
        refused(
            b"(send (not (not (not (not (not (not (not (not (not (not (not (not (not (not (not (any",
            5,
            1,
            81,
        )
    );
}

#[test]
fn nodes(rt: HostRuntime) {
    assert!(rt; refused(JOINED, 6, 22, 284));
    assert!(rt; refused(OWN, 6, 22, 290));
}

#[test]
fn addresses(rt: HostRuntime) {
    assert!(rt; gives(b"dlsrc", b"0123456789af", 0x0123_4567_89af));
    assert!(rt; bad(Field::DlDst, b"0123456789a"));
    assert!(rt; bad(Field::DlDst, b"0123456789ag"));
    assert!(rt; bad(Field::DlDst, b"0123456789AF"));
    assert!(rt; gives(b"nwsrc", b"10.0.0.1", 0x0a00_0001));
    assert!(rt; gives(b"nwdst", b"255.255.255.255/32", 0xffff_ffff));
    assert!(rt; bad(Field::NwSrc, b"10.0.0.0/8"));
    assert!(rt; bad(Field::NwSrc, b"1.2.3.256"));
    assert!(rt; bad(Field::NwSrc, b"1.2.3"));
    assert!(rt; bad(Field::NwSrc, b"1.2.3.4/"));
    assert!(rt; bad(Field::NwSrc, b"1.2.3.4/032"));
}

#[test]
fn networks(rt: HostRuntime) {
    assert_eq!(rt; count(b"(send (nwsrc 10.0.0.0/8))"), Some(2));
    assert_eq!(rt; count(b"(send (nwsrc 0.0.0.0/0))"), Some(2));
    assert!(rt; refused(b"(send (nwsrc 10.0.0.1/8))", 4, 1, 13));
    assert!(rt; refused(b"(send (nwsrc 10.0.0.0/33))", 4, 1, 13));
    assert!(rt; refused(b"(send (nwsrc 1.2.3.4/))", 4, 1, 13));
}

#[test]
fn numbers(rt: HostRuntime) {
    assert!(rt; gives(b"dltyp", b"65535", 65535));
    assert!(rt; gives(b"tpsrc", b"0", 0));
    assert!(rt; gives(b"nwproto", b"255", 255));
    assert!(rt; bad(Field::TpDst, b"65536"));
    assert!(rt; bad(Field::TpDst, b"080"));
    assert!(rt; bad(Field::TpDst, b""));
    assert!(rt; bad(Field::NwProto, b"256"));
    assert_eq!(rt; count(b"(send (at 65535))"), Some(2));
    assert!(rt; refused(b"(send (at 65536))", 4, 1, 10));
    assert!(rt; number_of(b"00", 9).is_none());
}
