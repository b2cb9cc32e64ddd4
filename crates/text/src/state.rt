//! A reading under way.
use crate::due::Due;
use packet::Bounded;
use policy::Node;
use std::marker::Model;

/// What has been read so far; contracts see the reading that it stands for.
// No derived `==`: `Due` has none.
#[derive(Drop)]
pub struct State {
    // A stack with a dispatch on its top, and not calls within calls: it takes fixed memory and has room for 16 brackets.
    /// What each open bracket waits for, the innermost last.
    pub brackets: Bounded<Due, 16>,
    /// The nodes made.
    pub nodes: Bounded<Node, 64>,
    // Two flags, since two rules ask one each: whether a bracket may open here, and whether a form is joined.
    /// Whether this line has its form.
    pub formed: bool,
    /// Whether a form has closed before, so that the next is joined to it.
    pub joins: bool,
}

impl Model for State {
    ghost use Rattle.text.specs.Steps.{Reading};

    ghost Value = { Reading };

    ghost use Rattle.text.specs.View.{reading};

    ghost view = { reading };
}
