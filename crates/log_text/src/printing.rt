//! Printing a log.
ghost use Rattle.std.specs.Prelude.{◌≡◌, ◌++◌, ◌∷◌, [], OnOk, IfOk, string_bytes};
ghost use Rattle.log_text.specs.Text as spec;

use pkg_world::Bytes;
use refutation_log::{Log, Node, NodeKind};
use std::alloc::{AllocError, Global};

/// The text of a log: `jlpkg-log 1 N`, N being how many nodes there are, and then a line for each node, `S leaf` or
/// `S branch P C`, each line ended by a newline. S is the state chosen at the parent, `-` where there is none; P is the
/// package of a branch and C how many children it has. (own rule) What is printed of a printable log is read back as that
/// log: of one that has fewer than 2^32 nodes, whose first node alone has no state, and each branch of which has one child
/// or more. Any other log is printed by the same lines. The one error is want of memory.
pub fn print_log(alloc: Global, log: &Log) -> Result<Bytes, AllocError>
    ensures { IfOk result (λ bytes. bytes.items ≡ spec.text_of log.now.items) }
{
    let text = log_text(alloc, log.items())?;
    Ok(Bytes::of_vec(text.into_bytes()))
}

fn log_text(alloc: Global, nodes: &[Node]) -> Result<String, AllocError>
    ensures { IfOk result (λ text. string_bytes text ≡ spec.text_of nodes.now) }
{
    let mut text = first_line(alloc, nodes.len() as u64)?;
    for node in nodes {
        push_node(&mut text, node)?;
    }
    Ok(text)
}

/// The first line, with its newline.
fn first_line(alloc: Global, count: u64) -> Result<String, AllocError>
    ensures { IfOk result (λ text. string_bytes text ≡ spec.first_line count ++ 10 ∷ []) }
{
    format!(in alloc; "jlpkg-log 1 {count}\n")
}

/// Appends the line of a node, with its newline.
fn push_node(text: &mut String, node: &Node) -> Result<(), AllocError>
    ensures { OnOk result (string_bytes text.new ≡ string_bytes text.old ++ (spec.node_line node.now ++ 10 ∷ [])) }
{
    push_state(text, node.state)?;
    push_kind(text, node.kind)
}

fn push_state(text: &mut String, state: Option<u32>) -> Result<(), AllocError>
    ensures { OnOk result (string_bytes text.new ≡ string_bytes text.old ++ spec.state_text state) }
{
    match state {
        Some(state) => write!(text, "{state}"),
        None => text.push_str("-"),
    }
}

/// Appends what a node is, behind a space, and a newline.
fn push_kind(text: &mut String, kind: NodeKind) -> Result<(), AllocError>
    ensures { OnOk result (string_bytes text.new ≡ string_bytes text.old ++ (32 ∷ (spec.kind_text kind ++ 10 ∷ []))) }
{
    match kind {
        NodeKind::Leaf => text.push_str(" leaf\n"),
        NodeKind::Branch { package, children } => write!(text, " branch {package} {children}\n"),
    }
}
