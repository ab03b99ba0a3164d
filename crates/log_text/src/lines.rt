//! The lines of a log.
ghost use Rattle.std.specs.Prelude.{◌≡◌, None, Some, MatchOption};
ghost use Rattle.log_text.specs.Meant as spec;

use crate::words::{cut_at, read_number};
use refutation_log::{Node, NodeKind};

/// The state that a word tells: none at the first node, and a number at every other.
fn state_of(word: &[u8], is_first: bool) -> Option<Option<u32>>
    ensures { result ≡ spec.state_meant is_first word.now }
{
    if is_first {
        return if word == b"-".as_slice() {
            Some(None)
        } else {
            None
        };
    }
    match read_number(word) {
        Some(state) => Some(Some(state)),
        None => None,
    }
}

/// A branch on a package, which has one child or more.
fn branch_with(package: u32, children: u32) -> Option<NodeKind>
    ensures { result ≡ spec.branch_with «package» children }
{
    if children > 0 {
        Some(NodeKind::Branch { package, children })
    } else {
        None
    }
}

/// The branch that two numbers tell.
fn branch_of(counts: &[u8]) -> Option<NodeKind>
    ensures { result ≡ spec.branch_meant (spec.cut_at 32 counts.now) }
{
    match cut_at(counts, b' ') {
        Some((package, children)) => branch_by(package, children),
        None => None,
    }
}

fn branch_by(package: &[u8], children: &[u8]) -> Option<NodeKind>
    ensures { result ≡ spec.branch_meant (Some («package».now, children.now)) }
{
    let package = read_number(package)?;
    let children = read_number(children)?;
    branch_with(package, children)
}

/// What a node is: `leaf`, or `branch` with its package and how many children it has.
fn kind_of(text: &[u8]) -> Option<NodeKind>
    ensures { result ≡ spec.kind_meant text.now }
{
    match cut_at(text, b' ') {
        Some((word, counts)) => {
            if word == b"branch".as_slice() {
                branch_of(counts)
            } else {
                None
            }
        }
        None => {
            if text == b"leaf".as_slice() {
                Some(NodeKind::Leaf)
            } else {
                None
            }
        }
    }
}

fn node_by(word: &[u8], text: &[u8], is_first: bool) -> Option<Node>
    ensures { result ≡ spec.node_by is_first (Some (word.now, text.now)) }
{
    let state = state_of(word, is_first)?;
    let kind = kind_of(text)?;
    Some(Node { state, kind })
}

/// The node that a line tells; None where it is none of a log.
#[tactic(auto, unfolding(crate::specs::Meant::node_meant))]
fn node_of(line: &[u8], is_first: bool) -> Option<Node>
    ensures { result ≡ spec.node_meant is_first line.now }
{
    match cut_at(line, b' ') {
        Some((word, text)) => node_by(word, text, is_first),
        None => None,
    }
}

/// The node of the next line, and what stands behind that line; None where it is none of a log, or no line is there.
#[tactic(auto, unfolding(crate::specs::Meant::next_meant))]
pub(crate) fn next_node(bytes: &[u8], is_first: bool) -> Option<(Node, &[u8])>
    ensures { MatchOption result
        (spec.next_meant is_first bytes.now ≡ None)
        (λ found. spec.next_meant is_first bytes.now ≡ Some (found.0, found.1.now)) }
{
    match cut_at(bytes, b'\n') {
        Some((line, rest)) => match node_of(line, is_first) {
            Some(node) => Some((node, rest)),
            None => None,
        },
        None => None,
    }
}

/// How many nodes the first line tells; None where it is none of a log.
#[tactic(auto, unfolding(crate::specs::Meant::count_meant))]
pub(crate) fn count_of(line: &[u8]) -> Option<u32>
    ensures { result ≡ spec.count_meant line.now }
{
    match line.strip_prefix(b"jlpkg-log 1 ") {
        Some(word) => read_number(word),
        None => None,
    }
}
