//! What policies give, by the evaluator.
use packet::Packet;
use policy::{Policy, evaluate};
use text::read;

/// The copies of a port that a text gives a TCP packet to 000000000001, port `tpdst`, on switch 1; none where it is refused.
fn copies(text: &[u8], tpdst: u16, port: usize) -> Option<u16> {
    let mut policy = Policy::empty();
    read(&mut policy, text).ok()?;
    let packet = Packet::new(&[7, 1, 2048, 0, 0, 6, 0, u64::from(tpdst)]).ok()?;
    evaluate(&policy, 1, &packet)
        .get(port.checked_sub(1)?)
        .copied()
}

#[test]
fn overlaps_add_copies(rt: HostRuntime) {
    let lines = b"(send (dldst 000000000001) 1)\n(send (tpdst 80) 4)\n";
    assert_eq!(rt; copies(lines, 80, 1), Some(1));
    assert_eq!(rt; copies(lines, 80, 4), Some(1));
    assert_eq!(rt; copies(lines, 22, 4), Some(0));
    assert_eq!(rt;
        copies(b"(both (send (any) 4) (send (any) 4))", 80, 4),
        Some(2)
    );
    assert_eq!(rt; copies(b"(send (any) 4 4 4)", 80, 4), Some(3));
}

#[test]
fn predicates(rt: HostRuntime) {
    assert_eq!(rt; copies(b"(send (at 1) 2)", 80, 2), Some(1));
    assert_eq!(rt; copies(b"(send (at 2) 2)", 80, 2), Some(0));
    assert_eq!(rt;
        copies(b"(send (and (tpdst 80) (not (at 2))) 2)", 80, 2),
        Some(1)
    );
    assert_eq!(rt; copies(b"(send (or (tpdst 22) (at 2)) 2)", 80, 2), Some(0));
    assert_eq!(rt;
        copies(b"(keep (not (tpdst 22)) (send (any) 2))", 22, 2),
        Some(0)
    );
    assert_eq!(rt;
        copies(b"(keep (not (tpdst 22)) (send (any) 2))", 80, 2),
        Some(1)
    );
    assert_eq!(rt; copies(b"", 80, 2), Some(0));
}
