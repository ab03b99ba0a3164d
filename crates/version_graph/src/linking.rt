//! How the tables of neighbours are made and filled.
ghost use Rattle.std.specs.Prelude.{◌≡◌, ◌<◌, ℕ, [], length, slice_index, slice_index_or, IfOk};
ghost use Rattle.std.specs.List.Sorted.{IsStrictlyIncreasing};
ghost use Rattle.version_graph.specs.Keys.{pair_at};
ghost use Rattle.version_graph.specs.Stored.{rows_of};
ghost use Rattle.version_graph.specs.Links.{number_at, table_at, link_at, IsInTable, IsFree, CanForbid, ForbidsAll, ForbidsOf};

use crate::links::Links;
use std::alloc::{AllocError, Global};

/// For each package its neighbours, with which all is allowed.
pub(crate) fn free_links(
    alloc: Global,
    rows: &[Vec<u32>],
    sizes: &[u32],
) -> Result<Vec<Links>, AllocError>
    requires each { length rows.now ≡ length sizes.now }
    requires rising { (p : ℕ) → p < length rows.now → IsStrictlyIncreasing (slice_index_or (rows_of rows.now) p []) }
    requires known { (p k : ℕ) → p < length rows.now → k < length (slice_index_or (rows_of rows.now) p []) → slice_index (slice_index_or (rows_of rows.now) p []) k < length sizes.now }
    ensures each { IfOk result (λ links. length links.items ≡ length rows.now) }
    ensures numbers { IfOk result (λ links. (p : ℕ) → p < length rows.now → (link_at links.items p).numbers ≡ slice_index_or (rows_of rows.now) p []) }
    ensures free { IfOk result (λ links. (p : ℕ) → p < length rows.now → IsFree (link_at links.items p) (slice_index sizes.now p) sizes.now) }
{
    let mut links = Vec::new(alloc);
    for p in 0..rows.len() {
        let numbers = Vec::from_slice(alloc, rows[p].as_slice())?;
        links.push(Links::make(alloc, numbers, sizes[p], sizes)?)?;
    }
    Ok(links)
}

/// Forbids the state i of p with the state j of q in the tables of p.
fn forbid_at(links: &mut Vec<Links>, p: u32, i: u32, q: u32, j: u32)
    requires known { p < length links.old.items }
    requires there { (k : ℕ) → k < length (link_at links.old.items p).numbers → number_at (link_at links.old.items p) k ≡ q → IsInTable (table_at (link_at links.old.items p) k) i j }
    ensures { ForbidsOf links.old.items links.new.items p i q j }
{
    let link = &mut links[p as usize];
    link.forbid(i, q, j);
}

/// Forbids the pairs in the tables of both their packages.
pub(crate) fn forbid_pairs(links: &mut Vec<Links>, pairs: &[(u32, u32, u32, u32)])
    requires { (n : ℕ) → n < length pairs.now → CanForbid links.old.items (pair_at pairs.now n).0 (pair_at pairs.now n).2 (pair_at pairs.now n).1 (pair_at pairs.now n).3 }
    ensures { ForbidsAll links.old.items links.new.items pairs.now }
{
    for pair in pairs {
        let (p, q, i, j) = *pair;
        forbid_at(links, p, i, q, j);
        forbid_at(links, q, j, p, i);
    }
}
