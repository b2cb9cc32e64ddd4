//! Refusals: each has its number, its layer and its place.
mod calls;

/// A place in a text: a line from 1, and a byte of the whole text from 0.
#[derive(Clone, Copy, PartialEq, Eq, Debug)]
pub struct TextPlace {
    pub line: usize,
    pub byte: usize,
}

/// The calls that a fault of the host or of the switch names.
#[derive(Clone, Copy, PartialEq, Eq, Debug)]
pub enum Call {
    /// Making a packet of eight numbers.
    Packet,
    /// Handing the switch a message.
    Put,
    /// Having the switch apply all that waits.
    Fence,
    /// Sending a frame out.
    Out,
    /// One step of a station.
    Step,
}

/// Why the reader refuses a text; each cause has its number.
#[derive(Clone, Copy, PartialEq, Eq, Debug)]
pub enum ReaderCause {
    /// A byte that stands in no policy text.
    Byte = 1,
    /// A head word that cannot stand there.
    Head,
    /// Any other wrong, missing or extra word or bracket.
    Word,
    /// A malformed value, or one outside its field.
    Value,
    /// An opening bracket deeper than 16.
    Depth,
    /// A node past 64.
    Nodes,
}

/// Why the builder refuses a policy, likewise.
#[derive(Clone, Copy, PartialEq, Eq, Debug)]
pub enum BuilderCause {
    /// A test that the header kind does not carry.
    NotCarried = 7,
    /// A row with more than 8 copies.
    Copies,
    /// More rows than a table or the switch can hold.
    Rows,
    /// More rows alive than the work rows lent.
    WorkRows,
}

/// Why a call of the host is refused, likewise.
#[derive(Clone, Copy, PartialEq, Eq, Debug)]
pub enum HostCause {
    /// Eight numbers that break a packet's rules.
    Numbers = 11,
}

/// Why the switch refuses, likewise.
#[derive(Clone, Copy, PartialEq, Eq, Debug)]
pub enum SwitchCause {
    /// The link is shut.
    Shut = 12,
    /// The link broke in this call.
    Broken,
    /// 16 messages wait already.
    Waiting,
    /// Table rows and waiting adds fill the switch.
    Full,
}

/// A refusal: the layer that refuses, why, and where.
#[derive(Clone, Copy, PartialEq, Eq, Debug)]
pub enum Fault {
    Reader {
        cause: ReaderCause,
        place: TextPlace,
    },
    Builder {
        cause: BuilderCause,
        node: usize,
    },
    Host {
        cause: HostCause,
        call: Call,
    },
    Switch {
        cause: SwitchCause,
        call: Call,
    },
}
