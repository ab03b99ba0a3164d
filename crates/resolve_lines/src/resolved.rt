//! The line of what was resolved.
ghost use Rattle.std.specs.Prelude.{◌≡◌, IfOk, string_bytes};
ghost use Rattle.resolve_lines.specs.Lines as spec;

use std::alloc::{AllocError, Global};

/// `resolved K packages, N nodes`: how many packages were selected, and how many nodes the search visited. The one error is
/// want of memory.
pub fn resolved_line(alloc: Global, count: u64, nodes: u32) -> Result<String, AllocError>
    ensures { IfOk result (λ line. string_bytes line ≡ spec.resolved_line count nodes) }
{
    format!(in alloc; "resolved {count} packages, {nodes} nodes\n")
}
