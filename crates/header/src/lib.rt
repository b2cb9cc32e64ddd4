//! Header kinds: what the patterns of a switch's rows are, and the four laws that everything above rests on.
#![tactic(auto)]

mod cell;
mod frame;
mod kind;
mod overlaps;
mod pattern;
mod route;

pub use cell::Cell;
pub use frame::FramePattern;
pub use kind::HeaderKind;
pub use overlaps::{Overlap, compare, meet_all};
pub use pattern::CellPattern;
pub use route::{Prefix, RoutePattern};
