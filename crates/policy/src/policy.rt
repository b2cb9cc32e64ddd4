ghost use Rattle.std.specs.Prelude.{◌≡◌, true, map};
ghost use Rattle.packet.specs.Items.{items_of};
ghost use Rattle.policy.specs.Parts.{Below, Once, RightKinds, Rooted};
ghost use Rattle.policy.specs.Shapes.{shape};
ghost use Rattle.policy.specs.Trees.{stack_of, only_policy};

use crate::node::Node;
use packet::Bounded;

mod calls;

/// A policy: at most 64 nodes, numbered from 0 as they stand.
///
/// Each node has as its parts the newest nodes not yet taken, and only the last, a policy, stays untaken (`sound`).
/// So parts are numbered below their node, each node but the last belongs to one node, the kinds of the parts are
/// right, and the last belongs to none and is a policy. A policy is not `Copy`: a load uses it up.
// No `Model`: clauses see a policy as its nodes and as its tree, and a `Model` has one view.
#[derive(Drop)]
pub struct Policy {
    // Parts come before their node in one bounded list, and not in boxes, since the library allocates nothing.
    nodes: Bounded<Node, 64>,
    ghost sound: { only_policy (stack_of (map shape (items_of nodes))) ≡ true },
    ghost below: { Below (map shape (items_of nodes)) },
    ghost once: { Once (map shape (items_of nodes)) },
    ghost kinds: { ∥ RightKinds (map shape (items_of nodes)) ∥₁ },
    ghost root: { ∥ Rooted (map shape (items_of nodes)) ∥₁ },
}
