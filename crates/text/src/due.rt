//! What an open bracket waits for.
use packet::{Field, Ports};
use policy::{Kind, Node};

/// The heads whose brackets hold other brackets.
// Not a node with a place among its `Node::parts`: a send's ports come between its part and its end, so it has no node to ask before its bracket closes.
#[derive(Clone, Copy, PartialEq, Eq, Debug)]
pub enum Op {
    And,
    Or,
    Not,
    Send,
    Both,
    Keep,
}

/// What an open bracket waits for.
// No derived `==` here nor at `Part`: `Ports` has none, since its list has unused places.
#[derive(Clone, Copy)]
pub enum Due {
    /// A head word of that kind.
    Head(Kind),
    /// A switch number.
    Switch,
    /// A value of the field.
    Value(Field),
    // The two below go by the head and not by a node: see `Op`.
    /// The first bracket inside.
    First(Op),
    /// The second bracket inside.
    Second(Op),
    /// A port, or the closing bracket; these ports stand there already.
    Ports(Ports),
    /// The closing bracket, which makes the node.
    Close(Node),
}

/// A part that is due, and what is due after it.
#[derive(Clone, Copy)]
pub struct Part {
    pub kind: Kind,
    pub after: Due,
}
