//! The pattern algebra of both header kinds, on a table of packets and patterns.
use header::{CellPattern, FramePattern, HeaderKind, Overlap, RoutePattern, compare, meet_all};
use packet::{Field, Packet, Test};
use std::process::Abort;
use std::test::Fail;

const TEN: u64 = 10 << 24;

/// Six packets: to 10.1.2.3 by TCP port 80, by TCP port 22 and by UDP; to 11.0.0.0 by TCP port 80; ARP; all zeros.
const NUMBERS: [[u64; 8]; 6] = [
    [7, 1, 2048, 9, TEN + 66051, 6, 1024, 80],
    [7, 1, 2048, 9, TEN + 66051, 6, 1024, 22],
    [7, 1, 2048, 9, TEN + 66051, 17, 0, 0],
    [7, 2, 2048, 9, 11 << 24, 6, 1024, 80],
    [7, 1, 2054, 0, 0, 0, 0, 0],
    [0, 0, 0, 0, 0, 0, 0, 0],
];

/// The test of the first bits of a field.
fn bits(field: Field, value: u64, length: u8) -> Result<Test, Fail> {
    let test = Test::new(field, value, length).ok_or("no room for the value or the length")?;
    Ok(test)
}

/// The test of a field's whole number.
fn whole(field: Field, value: u64) -> Result<Test, Fail> {
    bits(field, value, field.width())
}

/// The test of the first bits of the receiver's address.
fn to(value: u64, length: u8) -> Result<Test, Fail> {
    bits(Field::NwDst, value, length)
}

/// The pattern of a test that the kind carries.
fn pattern<K: HeaderKind>(test: &Test) -> Result<K, Fail> {
    if K::carries(test) {
        Ok(K::of_test(test))
    } else {
        Err(Fail::new("not carried"))
    }
}

/// Checks which of the six packets hit a pattern.
fn check_hits<K: HeaderKind>(
    rt: &impl Abort,
    pattern: &K,
    expected: &[bool; 6],
) -> Result<(), Fail> {
    for (numbers, hit) in NUMBERS.iter().zip(expected) {
        let packet = Packet::new(numbers)?;
        assert_eq!(rt; pattern.hits(&packet), *hit);
    }
    Ok(())
}

/// Checks that a meet is hit by just the packets that hit both, and that there is none where no packet does.
fn check_meet<K: HeaderKind>(
    rt: &impl Abort,
    a: &K,
    b: &K,
    expected: Option<[bool; 6]>,
) -> Result<(), Fail> {
    match (a.meet(b), b.meet(a), expected) {
        (Some(one), Some(other), Some(hits)) => {
            check_hits(rt, &one, &hits)?;
            check_hits(rt, &other, &hits)
        }
        (None, None, None) => Ok(()),
        _ => Err(Fail::new("a meet too many or too few")),
    }
}

/// Checks which of two patterns cover the other, and how they compare.
fn check_covers<K: HeaderKind>(rt: &impl Abort, a: &K, b: &K, overlap: Overlap) {
    assert_eq!(rt;
        a.covers(b),
        matches!(overlap, Overlap::Same | Overlap::Around)
    );
    assert_eq!(rt;
        b.covers(a),
        matches!(overlap, Overlap::Same | Overlap::Within)
    );
    assert_eq!(rt; compare(a, a), Overlap::Same);
    assert_eq!(rt; compare(a, b), overlap);
}

#[test]
fn frame_patterns(rt: HostRuntime) -> Result<(), Fail> {
    let first: FramePattern = pattern(&whole(Field::DlDst, 1)?)?;
    let web: FramePattern = pattern(&whole(Field::TpDst, 80)?)?;
    let shell: FramePattern = pattern(&whole(Field::TpDst, 22)?)?;
    let ip: FramePattern = pattern(&whole(Field::DlTyp, 2048)?)?;
    check_hits(&rt, &first, &[true, true, true, false, true, false])?;
    check_hits(&rt, &web, &[true, false, false, true, false, false])?;
    check_hits(&rt, &ip, &[true, true, true, true, false, false])?;
    check_hits(&rt, &FramePattern::all(), &[true; 6])?;
    assert_eq!(rt; web.at(Field::DlTyp), Some(2048));
    assert_eq!(rt; web.at(Field::NwProto), Some(6));
    check_meet(
        &rt,
        &first,
        &web,
        Some([true, false, false, false, false, false]),
    )?;
    check_meet(&rt, &web, &shell, None)?;
    check_covers(&rt, &ip, &web, Overlap::Around);
    check_covers(&rt, &first, &web, Overlap::Partial);
    check_covers(&rt, &web, &shell, Overlap::Apart);
    check_covers(&rt, &first, &FramePattern::all(), Overlap::Within);
    Ok(())
}

#[test]
fn route_patterns(rt: HostRuntime) -> Result<(), Fail> {
    let eight: RoutePattern = pattern(&to(TEN, 8)?)?;
    let sixteen: RoutePattern = pattern(&to(TEN + 65536, 16)?)?;
    let other: RoutePattern = pattern(&to(11 << 24, 32)?)?;
    let ip: RoutePattern = pattern(&to(0, 0)?)?;
    check_hits(&rt, &eight, &[true, true, true, false, false, false])?;
    check_hits(&rt, &sixteen, &[true, true, true, false, false, false])?;
    check_hits(&rt, &other, &[false, false, false, true, false, false])?;
    check_hits(&rt, &ip, &[true, true, true, true, false, false])?;
    check_hits(&rt, &RoutePattern::all(), &[true; 6])?;
    assert!(rt; ip.network);
    check_meet(
        &rt,
        &eight,
        &sixteen,
        Some([true, true, true, false, false, false]),
    )?;
    check_meet(&rt, &eight, &other, None)?;
    check_covers(&rt, &eight, &sixteen, Overlap::Around);
    check_covers(&rt, &other, &ip, Overlap::Within);
    check_covers(&rt, &RoutePattern::all(), &ip, Overlap::Around);
    Ok(())
}

#[test]
fn carried_tests(rt: HostRuntime) -> Result<(), Fail> {
    assert!(rt; FramePattern::carries(&to(TEN, 32)?));
    assert!(rt; !FramePattern::carries(&to(TEN, 8)?));
    assert!(rt; RoutePattern::carries(&to(TEN, 8)?));
    assert!(rt; RoutePattern::carries(&to(0, 0)?));
    assert!(rt; !RoutePattern::carries(&whole(Field::TpDst, 80)?));
    Ok(())
}

#[test]
fn several_patterns(rt: HostRuntime) -> Result<(), Fail> {
    let first: FramePattern = pattern(&whole(Field::DlDst, 1)?)?;
    let web: FramePattern = pattern(&whole(Field::TpDst, 80)?)?;
    let shell: FramePattern = pattern(&whole(Field::TpDst, 22)?)?;
    let nothing = meet_all::<FramePattern>(&[]).ok_or("nothing asked, and no packet")?;
    check_hits(&rt, &nothing, &[true; 6])?;
    let both = meet_all(&[web, first, web]).ok_or("no packet to the first by port 80")?;
    check_hits(&rt, &both, &[true, false, false, false, false, false])?;
    assert!(rt; meet_all(&[first, web, shell]).is_none());
    Ok(())
}
