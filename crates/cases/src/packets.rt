//! Packets, tests and ports at their edges.
use packet::{Field, Packet, PortError, Ports, Test};
use std::test::Fail;

/// The number by which eight numbers are refused; none where they make a packet.
fn refused_by(numbers: [u64; 8]) -> Option<u8> {
    Packet::new(&numbers).err().map(|fault| fault.number())
}

#[test]
fn widths_and_existence(rt: HostRuntime) {
    assert_eq!(rt; refused_by([0; 8]), None);
    assert_eq!(rt;
        refused_by([281474976710655, 281474976710655, 65535, 0, 0, 0, 0, 0]),
        None
    );
    assert_eq!(rt;
        refused_by([281474976710656, 0, 0, 0, 0, 0, 0, 0]),
        Some(11)
    );
    assert_eq!(rt; refused_by([0, 0, 65536, 0, 0, 0, 0, 0]), Some(11));
    assert_eq!(rt;
        refused_by([0, 0, 2048, 4294967295, 4294967295, 255, 0, 0]),
        None
    );
    assert_eq!(rt; refused_by([0, 0, 2048, 0, 0, 256, 0, 0]), Some(11));
    assert_eq!(rt; refused_by([0, 0, 2054, 1, 0, 0, 0, 0]), Some(11));
    assert_eq!(rt; refused_by([0, 0, 2048, 0, 0, 6, 65535, 65535]), None);
    assert_eq!(rt; refused_by([0, 0, 2048, 0, 0, 17, 0, 53]), Some(11));
}

#[test]
fn first_bits(rt: HostRuntime) -> Result<(), Fail> {
    let ten = Packet::new(&[0, 0, 2048, 0, 180944897, 0, 0, 0])?;
    let wide = Test::new(Field::NwDst, 167772160, 8).ok_or("10.0.0.0/8 is a test")?;
    let narrow = Test::new(Field::NwDst, 167772160, 9).ok_or("10.0.0.0/9 is a test")?;
    let any = Test::new(Field::NwDst, 0, 0).ok_or("0.0.0.0/0 is a test")?;
    assert!(rt; wide.holds(&ten));
    assert!(rt; !narrow.holds(&ten));
    assert!(rt; any.holds(&ten));
    assert!(rt; Test::new(Field::NwDst, 0, 33).is_none());
    assert!(rt; Test::new(Field::NwProto, 256, 8).is_none());
    Ok(())
}

#[test]
fn ports_rise(rt: HostRuntime) {
    let mut ports = Ports::none();
    assert_eq!(rt; ports.add(48), Ok(()));
    assert_eq!(rt; ports.add(4), Ok(()));
    assert_eq!(rt; ports.add(4), Ok(()));
    assert_eq!(rt; ports.add(0), Err(PortError::NoPort));
    assert_eq!(rt; ports.add(49), Err(PortError::NoPort));
    assert_eq!(rt; ports.as_slice(), [4, 4, 48].as_slice());
}
