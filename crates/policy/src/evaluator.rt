ghost use Rattle.std.specs.Prelude.{◌≡◌, ℕ, ◌+◌, ◌<◌, ◌≤◌, [], ◌∷◌, ◌++◌, map, length, slice_index};
ghost use Rattle.packet.specs.Items.{items_of};
ghost use Rattle.packet.specs.PortLists.{times};
ghost use Rattle.packet.specs.Written.{written};
ghost use Rattle.packet.specs.declared.packet.Packet.{Packet};
ghost use Rattle.policy.specs.Meaning.{Counts};
ghost use Rattle.policy.specs.Roots.{tree_of};
ghost use Rattle.policy.specs.Shapes.{shape};
ghost use Rattle.policy.specs.Trees.{Untaken, add};
ghost use Rattle.policy.specs.Walks.{HasParts, StandsFor, held, tally};

use crate::node::Node;
use crate::policy::Policy;
use packet::{Bounded, Packet, Ports};

/// Takes the two newest truths of a list that has them, the older first.
fn take_two(truths: &mut Bounded<bool, 64>) -> (bool, bool)
    requires { 1 < length (items_of truths.old) }
    ensures { items_of truths.old ≡ items_of truths.new ++ result.0 ∷ [] ++ result.1 ∷ [] }
{
    let newest = truths.pop().unwrap();
    (truths.pop().unwrap(), newest)
}

/// A walk over the nodes of a policy, for a packet at a switch number: the truths of the untaken predicates, the ports
/// of those sends of the untaken policies that count, and where those of each policy begin.
#[derive(Drop)]
struct Walk<'a> {
    switch: u16,
    packet: &'a Packet,
    truths: Bounded<bool, 64>,
    // One list of sends, with where those of each policy begin: a list for each policy would have to be allocated.
    starts: Bounded<usize, 64>,
    sends: Bounded<Ports, 64>,
}

impl<'a> Walk<'a> {
    fn new(switch: u16, packet: &'a Packet) -> Walk<'a>
        ensures { StandsFor [] switch packet.now result }
    {
        Walk {
            switch,
            packet,
            truths: Bounded::new(false),
            starts: Bounded::new(0),
            sends: Bounded::new(Ports::none()),
        }
    }

    /// One node more.
    fn step(&mut self, node: &Node)
        requires parts { HasParts (shape node.now) self.old }
        requires room { held self.old < 64 }
        ensures few { held self.new ≤ held self.old + 1 }
        ensures stands { (ts us : Untaken) (s : ℕ) (k : Packet) → StandsFor ts s k self.old → add (shape node.now) ts ≡ Some us → StandsFor us s k self.new }
    {
        match node {
            Node::Any => self.truths.push(true).unwrap(),
            Node::At(number) => self.truths.push(*number == self.switch).unwrap(),
            Node::Is(test) => self.truths.push(test.holds(self.packet)).unwrap(),
            Node::Not => {
                let a = self.truths.pop().unwrap();
                self.truths.push(!a).unwrap();
            }
            Node::And => {
                let (a, b) = take_two(&mut self.truths);
                self.truths.push(a & b).unwrap();
            }
            Node::Or => {
                let (a, b) = take_two(&mut self.truths);
                self.truths.push(a | b).unwrap();
            }
            Node::Send(ports) => {
                self.starts.push(self.sends.len()).unwrap();
                if self.truths.pop().unwrap() {
                    self.sends.push(*ports).unwrap();
                }
            }
            Node::Both => {
                self.starts.pop().unwrap();
            }
            Node::Keep => {
                if !self.truths.pop().unwrap() {
                    let start = *self.starts.as_slice().last().unwrap();
                    self.sends.truncate(start);
                }
            }
        }
    }
}

/// Raises the count of each port of one send.
#[tactic(auto, using(crate::proofs::Counting::port_within, crate::proofs::Counting::port_times))]
fn count_ports(counts: &mut [u16; 48], ports: &Ports)
    requires { (n : ℕ) → n < 48 → slice_index counts.old n ≤ 504 }
    ensures { (n : ℕ) → n < 48 → slice_index counts.new n ≡ slice_index counts.old n + times (n + 1) (written ports.now) }
{
    for port in ports.as_slice() {
        counts[usize::from(*port) - 1] += 1;
    }
}

/// The counts of some sends together.
fn count_sends(sends: &[Ports]) -> [u16; 48]
    requires { length sends.now ≤ 64 }
    ensures { (n : ℕ) → n < 48 → slice_index result n ≡ tally (n + 1) (map written sends.now) }
{
    let mut counts = [0; 48];
    for ports in sends {
        count_ports(&mut counts, ports);
    }
    counts
}

/// How many copies of a packet the policy sends out of each port at a switch number: 48 counts, port 1 first.
pub fn evaluate(policy: &Policy, switch: u16, packet: &Packet) -> [u16; 48]
    ensures { Counts (tree_of policy.now) switch packet.now result }
{
    // Two parameters, the number and the packet: a struct of the two would be made for this call alone.
    let mut walk = Walk::new(switch, packet);
    for node in policy.nodes() {
        walk.step(node);
    }
    count_sends(walk.sends.as_slice())
}
