//! What each item of the text does to the reading.
ghost use Rattle.std.specs.Prelude.{◌≡◌, [], map, Some};
ghost use Rattle.policy.specs.Shapes.{shape};
ghost use Rattle.text.specs.Dues.{due_of};
ghost use Rattle.text.specs.Newest.{newest};
ghost use Rattle.text.specs.Steps.{answered, map_some, map_ok, part_due, closes, head_due, fill, grown, closed, start, opening, closing, line_ending, wording};
ghost use Rattle.text.specs.View.{owed};

use crate::due::{Due, Op, Part};
use crate::head::field_of;
use crate::state::State;
use crate::value::{number_of, small_number_of, test_of};
use packet::{Bounded, Ports, ReaderCause};
use policy::{Kind, Node};

/// How many ports a send has at most.
const MOST_PORTS: usize = 8;

/// The first part of a bracket, and what is due after it.
// The kinds are those of `Node::parts`, but a send has no node to ask before its bracket closes: see `Op`.
fn first_part(op: Op) -> Part
    ensures { part_due (due_of (Due.First op)) ≡ Some (owed result) }
{
    match op {
        Op::And | Op::Or | Op::Keep => Part {
            kind: Kind::Predicate,
            after: Due::Second(op),
        },
        Op::Not => Part {
            kind: Kind::Predicate,
            after: Due::Close(Node::Not),
        },
        Op::Send => Part {
            kind: Kind::Predicate,
            after: Due::Ports(Ports::none()),
        },
        Op::Both => Part {
            kind: Kind::Policy,
            after: Due::Second(op),
        },
    }
}

/// The second part of a bracket, if its head has one.
// The kinds are those of `Node::parts`, by the head as in `first_part`.
fn second_part(op: Op) -> Option<Part>
    ensures { part_due (due_of (Due.Second op)) ≡ map_some owed result }
{
    match op {
        Op::And => Some(Part {
            kind: Kind::Predicate,
            after: Due::Close(Node::And),
        }),
        Op::Or => Some(Part {
            kind: Kind::Predicate,
            after: Due::Close(Node::Or),
        }),
        Op::Both => Some(Part {
            kind: Kind::Policy,
            after: Due::Close(Node::Both),
        }),
        Op::Keep => Some(Part {
            kind: Kind::Policy,
            after: Due::Close(Node::Keep),
        }),
        Op::Not | Op::Send => None,
    }
}

/// The part that is due, and what is due after it.
fn part_of(d: Due) -> Option<Part>
    ensures { part_due (due_of d) ≡ map_some owed result }
{
    match d {
        Due::First(op) => Some(first_part(op)),
        Due::Second(op) => second_part(op),
        _ => None,
    }
}

/// The node of a bracket that may close.
fn node_of(d: Due) -> Option<Node>
    ensures { closes (due_of d) ≡ map_some shape result }
{
    match d {
        Due::Ports(ports) => Some(Node::Send(ports)),
        Due::Close(n) => Some(n),
        _ => None,
    }
}

/// What is due after a head word of that kind.
fn head_of(kind: Kind, w: &[u8]) -> Option<Due>
    ensures { head_due kind w.now ≡ map_some due_of result }
{
    match kind {
        Kind::Policy => policy_head(w),
        Kind::Predicate => predicate_head(w),
    }
}

/// What is due after the head word of a policy.
fn policy_head(w: &[u8]) -> Option<Due>
    ensures { head_due Kind.Policy w.now ≡ map_some due_of result }
{
    match w {
        b"send" => Some(Due::First(Op::Send)),
        b"both" => Some(Due::First(Op::Both)),
        b"keep" => Some(Due::First(Op::Keep)),
        _ => None,
    }
}

/// What is due after the head word of a predicate.
fn predicate_head(w: &[u8]) -> Option<Due>
    ensures { head_due Kind.Predicate w.now ≡ map_some due_of result }
{
    match w {
        b"any" => Some(Due::Close(Node::Any)),
        b"at" => Some(Due::Switch),
        b"and" => Some(Due::First(Op::And)),
        b"or" => Some(Due::First(Op::Or)),
        b"not" => Some(Due::First(Op::Not)),
        _ => field_of(w).map(Due::Value),
    }
}

impl State {
    /// Nothing has been read.
    pub fn new() -> State
        ensures { result ≡ start }
    {
        State {
            brackets: Bounded::new(Due::Switch),
            nodes: Bounded::new(Node::Any),
            formed: false,
            joins: false,
        }
    }

    /// An opening bracket: the line's form, or a part that is due.
    pub fn open(&mut self) -> Result<(), ReaderCause>
        ensures { opening self.old ≡ answered result self.new }
    {
        let Some(d) = self.brackets.pop() else {
            if self.formed {
                return Err(ReaderCause::Word);
            }
            self.brackets.push(Due::Head(Kind::Policy)).unwrap();
            return Ok(());
        };
        let part = part_of(d).ok_or(ReaderCause::Word)?;
        self.brackets.push(part.after).unwrap();
        self.brackets
            .push(Due::Head(part.kind))
            .or(Err(ReaderCause::Depth))
    }

    /// A line end, outside brackets only.
    pub fn line_end(&mut self) -> Result<(), ReaderCause>
        ensures { line_ending self.old ≡ answered result self.new }
    {
        if self.brackets.len() > 0 {
            return Err(ReaderCause::Word);
        }
        self.formed = false;
        Ok(())
    }

    /// A closing bracket, which makes its node.
    pub fn close(&mut self) -> Result<(), ReaderCause>
        ensures { closing self.old ≡ answered result self.new }
    {
        let d = self.brackets.pop().ok_or(ReaderCause::Word)?;
        let n = node_of(d).ok_or(ReaderCause::Word)?;
        add_node(&mut self.nodes, n)?;
        if self.brackets.len() > 0 {
            return Ok(());
        }
        self.end_form()
    }

    /// The last bracket of a form has closed: the form is joined to the forms before it.
    fn end_form(&mut self) -> Result<(), ReaderCause>
        requires { self.old.brackets ≡ [] }
        ensures { closed self.old self.old.nodes [] ≡ answered result self.new }
    {
        if self.joins {
            add_node(&mut self.nodes, Node::Both)?;
        }
        self.formed = true;
        self.joins = true;
        Ok(())
    }

    /// A word, for the innermost bracket.
    pub fn word(&mut self, w: &[u8]) -> Result<(), ReaderCause>
        ensures { wording self.old w.now ≡ answered result self.new }
    {
        let d = self.brackets.pop().ok_or(ReaderCause::Word)?;
        let next = filled(d, w)?;
        self.brackets.push(next).unwrap();
        Ok(())
    }
}

/// Adds a node unless 64 are there.
fn add_node(nodes: &mut Bounded<Node, 64>, n: Node) -> Result<(), ReaderCause>
    ensures { grown (shape n) (map shape (newest nodes.old)) ≡ answered result (map shape (newest nodes.new)) }
{
    nodes.push(n).or(Err(ReaderCause::Nodes))
}

/// What is due after a word.
fn filled(d: Due, w: &[u8]) -> Result<Due, ReaderCause>
    ensures { fill (due_of d) w.now ≡ map_ok due_of result }
{
    match d {
        Due::Head(kind) => head_of(kind, w).ok_or(ReaderCause::Head),
        Due::Switch => {
            let n = number_of(w, 65535).ok_or(ReaderCause::Value)?;
            Ok(Due::Close(Node::At(n)))
        }
        Due::Value(f) => {
            let t = test_of(f, w).ok_or(ReaderCause::Value)?;
            Ok(Due::Close(Node::Is(t)))
        }
        Due::Ports(ports) => with_port(ports, w),
        _ => Err(ReaderCause::Word),
    }
}

/// A send's ports with one port more; a ninth is an extra word.
fn with_port(mut ports: Ports, w: &[u8]) -> Result<Due, ReaderCause>
    ensures { fill (due_of (Due.Ports ports)) w.now ≡ map_ok due_of result }
{
    if ports.as_slice().len() == MOST_PORTS {
        return Err(ReaderCause::Word);
    }
    let n = small_number_of(w, 255).ok_or(ReaderCause::Value)?;
    ports.add(n).or(Err(ReaderCause::Value))?;
    Ok(Due::Ports(ports))
}
