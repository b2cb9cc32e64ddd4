//! Policies: their nodes, what they mean, and the evaluator.
#![tactic(auto)]

mod evaluator;
mod node;
mod policy;

pub use evaluator::evaluate;
pub use node::{Kind, Node};
pub use policy::Policy;
