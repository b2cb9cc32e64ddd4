ghost use Rattle.std.specs.Prelude.{◌≡◌, Some, ◌++◌, codes, decimal};
ghost use Rattle.packet.specs.Faults.{number_of};
ghost use Rattle.packet.specs.Telling.{builder_meaning, host_meaning, name_of, reader_meaning, switch_meaning, told, told_place};

use super::{BuilderCause, Call, Fault, HostCause, ReaderCause, SwitchCause, TextPlace};
use std::fmt;

impl Fault {
    /// The refusal's number, 1 to 15.
    pub fn number(&self) -> u8
        ensures { result ≡ number_of self.now }
    {
        match self {
            Fault::Reader { cause, .. } => *cause as u8,
            Fault::Builder { cause, .. } => *cause as u8,
            Fault::Host { cause, .. } => *cause as u8,
            Fault::Switch { cause, .. } => *cause as u8,
        }
    }
}

impl fmt::Display for TextPlace {
    ghost output = { λ p. Some (told_place p) };

    fn fmt<W: fmt::Write>(&self, f: &mut fmt::Formatter<W>) -> fmt::Result {
        let line = self.line;
        let byte = self.byte;
        write!(f, "line {line}, byte {byte}")
    }
}

// A `Display` for each: one `impl` over a trait of words would be no plainer, as each enum would still want its table.
impl fmt::Display for ReaderCause {
    ghost output = { λ c. Some (reader_meaning c) };

    fn fmt<W: fmt::Write>(&self, f: &mut fmt::Formatter<W>) -> fmt::Result {
        f.write_str(match self {
            ReaderCause::Byte => "a byte that stands in no policy text",
            ReaderCause::Head => "a head word that cannot stand there",
            ReaderCause::Word => "a wrong, missing or extra word or bracket",
            ReaderCause::Value => "a malformed value, or one outside its field",
            ReaderCause::Depth => "an opening bracket deeper than 16",
            ReaderCause::Nodes => "a node past 64",
        })
    }
}

impl fmt::Display for BuilderCause {
    ghost output = { λ c. Some (builder_meaning c) };

    fn fmt<W: fmt::Write>(&self, f: &mut fmt::Formatter<W>) -> fmt::Result {
        f.write_str(match self {
            BuilderCause::NotCarried => "a test that the header kind does not carry",
            BuilderCause::Copies => "a row with more than 8 copies",
            BuilderCause::Rows => "more rows than fit",
            BuilderCause::WorkRows => "more rows alive than work rows",
        })
    }
}

impl fmt::Display for HostCause {
    ghost output = { λ c. Some (host_meaning c) };

    fn fmt<W: fmt::Write>(&self, f: &mut fmt::Formatter<W>) -> fmt::Result {
        f.write_str(match self {
            HostCause::Numbers => "numbers that break a packet's rules",
        })
    }
}

impl fmt::Display for SwitchCause {
    ghost output = { λ c. Some (switch_meaning c) };

    fn fmt<W: fmt::Write>(&self, f: &mut fmt::Formatter<W>) -> fmt::Result {
        f.write_str(match self {
            SwitchCause::Shut => "the link is shut",
            SwitchCause::Broken => "the link broke",
            SwitchCause::Waiting => "16 messages wait already",
            SwitchCause::Full => "the switch has no room for a row",
        })
    }
}

/// The name by which a fault tells its place.
impl fmt::Display for Call {
    ghost output = { λ c. Some (name_of c) };

    fn fmt<W: fmt::Write>(&self, f: &mut fmt::Formatter<W>) -> fmt::Result {
        f.write_str(match self {
            Call::Packet => "packet",
            Call::Put => "put",
            Call::Fence => "fence",
            Call::Out => "out",
            Call::Step => "step",
        })
    }
}

impl fmt::Display for Fault {
    ghost output = { λ f. Some (told f) };

    fn fmt<W: fmt::Write>(&self, f: &mut fmt::Formatter<W>) -> fmt::Result {
        let number = self.number();
        match self {
            Fault::Reader { cause, place } => {
                write!(f, "refused {number} by the reader at {place}: {cause}")
            }
            Fault::Builder { cause, node } => {
                write!(f, "refused {number} by the builder at node {node}: {cause}")
            }
            Fault::Host { cause, call } => {
                write!(f, "refused {number} by the host at {call}: {cause}")
            }
            Fault::Switch { cause, call } => {
                write!(f, "refused {number} by the switch at {call}: {cause}")
            }
        }
    }
}
