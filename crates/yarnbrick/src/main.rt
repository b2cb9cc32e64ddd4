//! The program: policies kept as text files, checked and asked where they send a packet.
#![tactic(auto)]

use console::{Command, Failure, Sources};
use std::process::ExitCode;
use std::{env, fs, io};

/// The files, as one text.
fn gather(rt: &HostRuntime, files: Vec<String>) -> Result<Sources, Failure> {
    let heap = rt.alloc();
    let mut sources = Sources::new(heap);
    for name in files {
        let content = fs::read(rt, name.as_str()).try_map_err(|error| {
            Ok(Failure::Told(format!(in heap; "yarnbrick: cannot read {name}: {error}")?))
        })?;
        sources.add(name, content.as_slice())?;
    }
    Ok(sources)
}

/// What the arguments ask for, answered in a line or more.
fn answer(rt: &HostRuntime) -> Result<String, Failure> {
    let heap = rt.alloc();
    let mut words = env::args(rt)?.skip(1);
    let name = words.next().try_ok_or_else(|| {
        Ok(Failure::Told(format!(in heap; "yarnbrick: no command; 'yarnbrick help' lists them")?))
    })?;
    let words = words.collect(heap)?;
    match console::command_of(heap, name.as_str(), words)? {
        Command::Help => Ok(String::from_str(heap, console::HELP)?),
        Command::Check { files } => console::check(heap, &gather(rt, files)?),
        Command::Ports {
            switch,
            packet,
            files,
        } => console::ports(heap, &gather(rt, files)?, switch, &packet),
    }
}

fn main(rt: HostRuntime) -> io::Result<ExitCode> {
    match answer(&rt) {
        Ok(text) => {
            println!(rt; "{text}")?;
            Ok(ExitCode::SUCCESS)
        }
        Err(failure) => {
            eprintln!(rt; "{failure}")?;
            Ok(ExitCode::FAILURE)
        }
    }
}
