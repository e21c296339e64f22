//! Ordered maps whose old versions stay readable: a [`Tree`] is a B+ tree with up to sixteen items a node.
//! Trees share nodes through `Arc`. A change copies the shared nodes on the path from the root, and changes
//! the others in place.
#![tactic(auto)]

mod change;
mod child;
mod divide;
mod find;
mod grow;
mod hook;
mod iter;
mod leaf;
mod modify;
mod no_hook;
mod node;
mod path;
mod rebalance;
mod room;
mod root;
mod shift;
mod split;
mod tree;

pub use hook::Hook;
pub use iter::Iter;
pub use modify::Modify;
pub use tree::Tree;
