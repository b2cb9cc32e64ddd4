ghost use Rattle.std.specs.Prelude.{◌≡◌};
ghost use Rattle.policy.specs.Kinds.{kind_of, wanted};
ghost use Rattle.policy.specs.Shapes.{shape};

use packet::{Ports, Test};

/// What a node is: a predicate, true or false of a packet, or a policy, which sends it.
#[derive(Clone, Copy, PartialEq, Eq, Debug)]
pub enum Kind {
    Predicate,
    Policy,
}

// No derived `==`, as `Ports` has none.
/// A node of a policy. Its parts are not named: they are the newest nodes that no node has taken yet.
#[derive(Clone, Copy)]
pub enum Node {
    /// True of every packet.
    Any,
    /// True on the switch of that number only.
    At(u16),
    /// True where the test is.
    Is(Test),
    And,
    Or,
    Not,
    /// Sends to the ports where its predicate is true.
    Send(Ports),
    /// Both of two policies, copies added.
    Both,
    /// A policy, only where a predicate is true.
    Keep,
}

impl Node {
    /// Whether the node is a predicate or a policy.
    pub fn kind(&self) -> Kind
        ensures { result ≡ kind_of (shape self.now) }
    {
        match self {
            Node::Send(_) | Node::Both | Node::Keep => Kind::Policy,
            _ => Kind::Predicate,
        }
    }

    /// The kinds of its parts, the oldest first.
    pub fn parts(&self) -> &'static [Kind]
        ensures { result.now ≡ wanted (shape self.now) }
    {
        match self {
            Node::Any | Node::At(_) | Node::Is(_) => &[],
            Node::And | Node::Or => &[Kind::Predicate, Kind::Predicate],
            Node::Not | Node::Send(_) => &[Kind::Predicate],
            Node::Both => &[Kind::Policy, Kind::Policy],
            Node::Keep => &[Kind::Predicate, Kind::Policy],
        }
    }
}
