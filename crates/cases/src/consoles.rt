//! What the program answers, and how it tells what it cannot answer.
use console::{
    Command, Failure, Sources, check as check_files, command_of, packet_of, ports as ports_of,
};
use std::alloc::{AllocError, Global};
use std::test::Fail;

/// The line that a failure tells.
fn line_of<T: Drop>(res: Result<T, Failure>) -> Result<String, Fail> {
    let Err(Failure::Told(line)) = res else {
        return Err(Fail::new("a line was wanted"));
    };
    Ok(line)
}

fn two_files(heap: Global, first: &[u8], second: &[u8]) -> Result<Sources, Fail> {
    let mut sources = Sources::new(heap);
    let one = String::from_str(heap, "a.policy")?;
    let two = String::from_str(heap, "b.policy")?;
    sources.add(one, first)?;
    sources.add(two, second)?;
    Ok(sources)
}

#[test]
fn files_are_one_text(rt: HostRuntime) -> Result<(), Fail> {
    let heap = rt.alloc();
    let sources = two_files(
        heap,
        b"(send (dldst 000000000001) 1)",
        b"(send (tpdst 80) 4)\n",
    )?;
    let line = check_files(heap, &sources)?;
    assert_eq!(rt; line.as_str(), "5 nodes");
    let packet = packet_of(heap, "dldst=000000000001 dltyp=2048 nwproto=6 tpdst=80")?;
    let line = ports_of(heap, &sources, 1, &packet)?;
    assert_eq!(rt; line.as_str(), "ports 1 4");
    Ok(())
}

#[test]
fn faults_name_their_file(rt: HostRuntime) -> Result<(), Fail> {
    let heap = rt.alloc();
    let sources = two_files(heap, b"\n(send (any) 1)", b"(send (any) 0)\n")?;
    let line = line_of(check_files(heap, &sources))?;
    assert_eq!(rt;
        line.as_str(),
        "refused 4 by the reader at line 1, byte 12: a malformed value, or one outside its field (b.policy; line 3, byte 28 of the whole text)"
    );
    Ok(())
}

#[test]
fn packets_as_typed(rt: HostRuntime) -> Result<(), Fail> {
    let heap = rt.alloc();
    assert!(rt; packet_of(heap, "").is_ok());
    assert!(rt; packet_of(heap, "dltyp=2048 nwsrc=10.0.0.1").is_ok());
    assert_eq!(rt;
        line_of(packet_of(heap, "tpdst=80"))?.as_str(),
        "refused 11 by the host at packet: numbers that break a packet's rules"
    );
    assert_eq!(rt;
        line_of(packet_of(heap, "dltyp=1 dltyp=2"))?.as_str(),
        "yarnbrick: dltyp is given twice"
    );
    assert_eq!(rt;
        line_of(packet_of(heap, "port=1"))?.as_str(),
        "yarnbrick: a packet has no field 'port'"
    );
    assert_eq!(rt;
        line_of(packet_of(heap, "nwproto=256"))?.as_str(),
        "yarnbrick: '256' is no value of nwproto"
    );
    Ok(())
}

fn words(heap: Global, list: &[&str]) -> Result<Vec<String>, AllocError> {
    list.iter()
        .map(|word| String::from_str(heap, *word))
        .try_collect(heap)
}

#[test]
fn commands(rt: HostRuntime) -> Result<(), Fail> {
    let heap = rt.alloc();
    let Command::Ports {
        switch,
        packet: _,
        files,
    } = command_of(
        heap,
        "ports",
        words(heap, &["--switch", "7", "--packet", "", "--", "--odd"])?,
    )?
    else {
        return Err(Fail::new("no ports command"));
    };
    assert_eq!(rt; switch, 7);
    assert_eq!(rt; files.len(), 1);
    assert_eq!(rt;
        line_of(command_of(heap, "check", words(heap, &[])?))?.as_str(),
        "yarnbrick: check wants a policy file"
    );
    assert_eq!(rt;
        line_of(command_of(heap, "chek", words(heap, &[])?))?.as_str(),
        "yarnbrick: no command 'chek'; 'yarnbrick help' lists them"
    );
    assert_eq!(rt;
        line_of(command_of(heap, "check", words(heap, &["--kind"])?))?.as_str(),
        "yarnbrick: no option '--kind'; 'yarnbrick help' lists them"
    );
    Ok(())
}
