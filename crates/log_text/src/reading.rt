//! Reading the text of a log.
ghost use Rattle.std.specs.Prelude.{◌≡◌, List, true, Ok, IfOk, IfErr, MatchResult};
ghost use Rattle.refutation_log.specs.declared.node.Node.{Node};
ghost use Rattle.log_text.specs.Text.{IsTextOf};
ghost use Rattle.log_text.specs.Bad.{Refuses};
ghost use Rattle.log_text.specs.Meant as spec;
ghost use Rattle.log_text.specs.declared.fault.LogFault.TheVariants.{Memory};

use crate::fault::LogFault;
use crate::laws::meaning_is_the_texts;
use crate::lines::{count_of, next_node};
use crate::words::cut_at;
use refutation_log::Log;
use std::alloc::Global;

/// The log that a text tells. Line 1 is `jlpkg-log 1 N`; then come N lines, one for each node: `S leaf` or `S branch P C`,
/// with one space between, where S is `-` on the first node and else the state chosen at the parent, P is a package, and C
/// is how many children there are, at least one. Numbers are decimal, below 2^32 and without leading zeros. Every line ends
/// with a newline, and nothing follows. (own rule) Whether the nodes are one whole tree isn't asked.
///
/// Any other text is refused by BadLog with the number of the first line outside this, counted from 1; a line that is
/// missing counts as the next one. Want of memory comes apart from that. The text is read once, and no line is copied.
pub fn read_log(alloc: Global, bytes: &[u8]) -> Result<Log, LogFault>
    // What is read has this text.
    ensures ok { IfOk result (λ log. IsTextOf bytes.now log.items) }
    // What has this text is read, unless memory runs out.
    ensures only { (nodes : List Node) → IsTextOf bytes.now nodes → MatchResult result (λ log. log.items ≡ nodes) (λ fault. fault ≡ Memory) }
    // A refused text is that of no log, and the line is its first bad one.
    ensures bad { IfErr result (Refuses bytes.now) }
{
    meaning_is_the_texts();
    read_bytes(alloc, bytes)
}

/// The nodes that the bytes tell, or their first bad line.
#[tactic(auto, unfolding(crate::specs::Meant::log_meant))]
fn read_bytes(alloc: Global, bytes: &[u8]) -> Result<Log, LogFault>
    ensures { MatchResult result (λ log. spec.log_meant bytes.now ≡ Ok log.items) (spec.RefusesAt (spec.log_meant bytes.now)) }
{
    match cut_at(bytes, b'\n') {
        Some((line, rest)) => read_counted(alloc, line, rest),
        None => Err(LogFault::BadLog(1)),
    }
}

/// The same by the first line and what stands behind it.
fn read_counted(alloc: Global, line: &[u8], rest: &[u8]) -> Result<Log, LogFault>
    ensures { MatchResult result
        (λ log. spec.nodes_by rest.now (spec.count_meant line.now) ≡ Ok log.items)
        (spec.RefusesAt (spec.nodes_by rest.now (spec.count_meant line.now))) }
{
    match count_of(line) {
        Some(count) => read_nodes(alloc, count, rest),
        None => Err(LogFault::BadLog(1)),
    }
}

/// So many nodes, from the second line on.
fn read_nodes(alloc: Global, count: u32, bytes: &[u8]) -> Result<Log, LogFault>
    ensures { MatchResult result
        (λ log. spec.nodes_meant count true 2 bytes.now ≡ Ok log.items)
        (spec.RefusesAt (spec.nodes_meant count true 2 bytes.now)) }
{
    let mut log = Log::make(alloc);
    let mut rest = bytes;
    for place in 0..count {
        match next_node(rest, place == 0) {
            Some((node, after)) => {
                log.push(node)?;
                rest = after;
            }
            None => return Err(LogFault::BadLog(u64::from(place) + 2)),
        }
    }
    if rest.is_empty() {
        Ok(log)
    } else {
        Err(LogFault::BadLog(u64::from(count) + 2))
    }
}
