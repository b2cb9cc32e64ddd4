ghost use Rattle.std.specs.Prelude.{◌≡◌, Some, None, string_bytes, codes, MatchResult};
ghost use Rattle.console.specs.Commands.{Asks, AsksNone, Because, Complete, Follows, Lacks, NoOption, Stops, Stuck, Takes, TakesAll, TakesAny, names_of, nothing};
ghost use Rattle.text.specs.Values.{numeral};

use crate::failure::{Failure, told};
use crate::packets::packet_of;
use packet::Packet;
use std::alloc::Global;
use std::marker::Model;
use text::number_of;

/// What was asked for.
#[derive(Debug, Drop)]
pub enum Command {
    Help,
    Check {
        files: Vec<String>,
    },
    Ports {
        switch: u16,
        packet: Packet,
        files: Vec<String>,
    },
}

/// What the next word of the arguments is.
#[derive(Clone, Copy, PartialEq, Eq, Debug)]
enum Due {
    /// An option or a file.
    Any,
    /// The number after `--switch`.
    Switch,
    /// The words after `--packet`.
    Packet,
    /// A file, after `--`.
    File,
}

/// The options and files of a command, word by word.
#[derive(Debug, Drop)]
struct Options {
    // A state of the reading: words are taken one by one, and `help` never asks whether the last option has its value.
    due: Due,
    switch: Option<u16>,
    packet: Option<Packet>,
    files: Vec<String>,
}

/// What has been asked so far, and what the next word is.
impl Model for Options {
    ghost use Rattle.console.specs.Commands.{Asked, asked};

    ghost Value = { Asked };

    ghost view = { asked };
}

impl Options {
    fn new(heap: Global) -> Options
        ensures { result ≡ nothing }
    {
        Options {
            due: Due::Any,
            switch: None,
            packet: None,
            files: Vec::new(heap),
        }
    }

    /// All words, one after another.
    fn from_words(heap: Global, words: Vec<String>) -> Result<Options, Failure>
        ensures { MatchResult result (λ o. TakesAll nothing (names_of words) o) (Because (Stops nothing (names_of words))) }
    {
        let mut options = Options::new(heap);
        for word in words {
            options.add(heap, word)?;
        }
        Ok(options)
    }

    fn add(&mut self, heap: Global, word: String) -> Result<(), Failure>
        ensures { MatchResult result (λ _. Takes self.old (string_bytes word) self.new) (Because (Stuck self.old.next (string_bytes word))) }
    {
        match self.due {
            Due::Any => self.add_any(heap, word),
            Due::Switch => {
                self.switch = Some(switch_of(heap, word.as_str())?);
                self.due = Due::Any;
                Ok(())
            }
            Due::Packet => {
                self.packet = Some(packet_of(heap, word.as_str())?);
                self.due = Due::Any;
                Ok(())
            }
            Due::File => {
                self.files.push(word)?;
                Ok(())
            }
        }
    }

    fn add_any(&mut self, heap: Global, word: String) -> Result<(), Failure>
        ensures { MatchResult result (λ _. TakesAny self.old (string_bytes word) self.new) (Because (NoOption (string_bytes word))) }
    {
        match word.as_str() {
            "--" => self.due = Due::File,
            "--switch" => self.due = Due::Switch,
            "--packet" => self.due = Due::Packet,
            text if text.starts_with("--") => {
                return Err(told(format!(in heap;
                    "yarnbrick: no option '{word}'; 'yarnbrick help' lists them"
                )));
            }
            _ => self.files.push(word)?,
        }
        Ok(())
    }

    /// All words have been added: whether the last option has its value, and there is a file.
    fn finish(&self, heap: Global, command: &str) -> Result<(), Failure>
        ensures { MatchResult result (λ _. Complete self.now) (Because (Complete self.now → ⊥)) }
    {
        match self.due {
            Due::Switch => {
                return Err(told(format!(in heap; "yarnbrick: --switch wants a number")));
            }
            Due::Packet => {
                return Err(told(format!(in heap; "yarnbrick: --packet wants words FIELD=V")));
            }
            Due::Any | Due::File => {}
        }
        if self.files.is_empty() {
            return Err(told(format!(in heap; "yarnbrick: {command} wants a policy file")));
        }
        Ok(())
    }

    fn check(self, heap: Global) -> Result<Command, Failure>
        ensures { MatchResult result (Follows (codes "check") self) (Because (Lacks (codes "check") self)) }
    {
        self.finish(heap, "check")?;
        if self.switch.is_some() || self.packet.is_some() {
            return Err(told(format!(in heap; "yarnbrick: check takes files only")));
        }
        Ok(Command::Check { files: self.files })
    }

    fn ports(self, heap: Global) -> Result<Command, Failure>
        ensures { MatchResult result (Follows (codes "ports") self) (Because (Lacks (codes "ports") self)) }
    {
        self.finish(heap, "ports")?;
        let packet = self.packet.ok_or_else(|| {
            told(format!(in heap; "yarnbrick: ports wants --packet \"FIELD=V ..\""))
        })?;
        Ok(Command::Ports {
            switch: self.switch.unwrap_or(1),
            packet,
            files: self.files,
        })
    }
}

/// A switch number, 0 to 65535.
fn switch_of(heap: Global, word: &str) -> Result<u16, Failure>
    ensures { MatchResult result (λ n. numeral 65535 word.now ≡ Some n) (Because (numeral 65535 word.now ≡ None)) }
{
    number_of(word.as_bytes(), 65535).ok_or_else(|| {
        told(format!(in heap; "yarnbrick: a switch number is 0 to 65535, not '{word}'"))
    })
}

/// The command of that name, with the words after it.
pub fn command_of(heap: Global, name: &str, words: Vec<String>) -> Result<Command, Failure>
    ensures { MatchResult result (Asks name.now (names_of words)) (Because (AsksNone name.now (names_of words))) }
{
    let options = Options::from_words(heap, words)?;
    match name {
        "check" => options.check(heap),
        "ports" => options.ports(heap),
        "help" => Ok(Command::Help),
        _ => Err(told(format!(in heap;
            "yarnbrick: no command '{name}'; 'yarnbrick help' lists them"
        ))),
    }
}
