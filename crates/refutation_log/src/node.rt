//! The nodes of a log.
use pkg_world::Listed;

/// A node of a log.
#[derive(Clone, Copy, Debug, PartialEq, Eq)]
pub struct Node {
    /// The state that was chosen at the parent's package; none at the first node.
    pub state: Option<u32>,
    /// What the node is.
    pub kind: NodeKind,
}

/// What a node of a log is.
#[derive(Clone, Copy, Debug, PartialEq, Eq)]
pub enum NodeKind {
    /// The choices on the way here leave some package no state.
    Leaf,
    /// The choice of a state of one package, each in a child of its own.
    Branch { package: u32, children: u32 },
}

/// Nodes, which are read as a tree in pre-order. Any nodes may stand in it.
pub type Log = Listed<Node>;
