//! What demands are resolved to: selections, certificates and classes.
use offer_terms::{Book, Demand, Selection};
use offer_tests::worlds::{Lost, REGISTRY, World, book_of, demand_of, world_in};
use pkg_world::{Ids, MemStore, Store};
use refutation_log::Log;
use resolve_core::{ClassTable, ResolveFault, class_table, resolve, verify_log};
use std::alloc::{AllocError, Global};
use std::test::Fail;
use store_tests::files::{at, filled};

/// A project that needs A and B.
const A_AND_B: &str =
    "[deps]\nA = \"00000000-0000-4000-8000-000000000003\"\nB = \"00000000-0000-4000-8000-000000000004\"\n";

/// A project that allows no version of A that there is.
const NEW_A: &str = "[deps]\nA = \"00000000-0000-4000-8000-000000000003\"\n[compat]\nA = \"3\"\n";

/// A project that needs D alone.
const D: &str = "[deps]\nD = \"00000000-0000-4000-8000-000000000006\"\n";

/// The project's file, the budget, and what comes of it.
const ROWS: &[(&str, u32, &str)] = &[
    (A_AND_B, 100, "1 nodes: 3=2 4=1 5=2"),
    (A_AND_B, 0, "gave up after 0 nodes"),
    (D, 100, "0 nodes: 6=1"),
    (NEW_A, 100, "unsatisfiable by 1 nodes, accepted: true"),
];

/// The packages, by the last bytes of their identifiers, with the first numbers of their versions.
fn selection_text(alloc: Global, nodes: u32, selection: &Selection) -> Result<String, AllocError> {
    let mut text = format!(in alloc; "{nodes} nodes:")?;
    for (uuid, version) in selection.items() {
        let byte = uuid.as_bytes()[15];
        let [major, _, _] = version.triple();
        text.push_str(format!(in alloc; " {byte}={major}")?.as_str())?;
    }
    Ok(text)
}

fn accepts(alloc: Global, book: &Book, demand: &Demand, log: &Log) -> Result<bool, AllocError> {
    match verify_log(alloc, book, demand, log) {
        Ok(accepted) => Ok(accepted),
        Err(_) => Err(AllocError),
    }
}

fn refusal_text(
    alloc: Global,
    book: &Book,
    demand: &Demand,
    fault: &ResolveFault,
) -> Result<String, AllocError> {
    match fault {
        ResolveFault::Unsatisfiable(log) => {
            let count = log.items().len();
            let accepted = accepts(alloc, book, demand, log)?;
            format!(in alloc; "unsatisfiable by {count} nodes, accepted: {accepted}")
        }
        ResolveFault::GaveUp(log) => {
            let count = log.items().len();
            format!(in alloc; "gave up after {count} nodes")
        }
        ResolveFault::Limit(_, count) => format!(in alloc; "limit {count}"),
        ResolveFault::Memory => Err(AllocError),
    }
}

fn told(alloc: Global, book: &Book, demand: &Demand, budget: u32) -> Result<String, AllocError> {
    match resolve(alloc, book, demand, budget) {
        Ok(resolved) => selection_text(alloc, resolved.nodes, &resolved.selection),
        Err(fault) => refusal_text(alloc, book, demand, &fault),
    }
}

/// A registry and a project.
fn store_of(alloc: Global, project: &str) -> Result<MemStore, Lost> {
    let mut store = filled(alloc, REGISTRY)?;
    let _ = store.replace(alloc, &at(alloc, "/p/Project.toml")?, project.as_bytes());
    Ok(store)
}

/// A demand with its book.
#[derive(Drop)]
struct Asked {
    book: Book,
    demand: Demand,
}

fn ask_in(alloc: Global, store: &mut MemStore, world: &World) -> Result<Asked, Lost> {
    let demand = demand_of(alloc, world)?;
    let book = book_of(alloc, store, &world.catalog, &demand, &Ids::make(alloc))?;
    Ok(Asked { book, demand })
}

fn ask(alloc: Global, project: &str) -> Result<Asked, Lost> {
    let mut store = store_of(alloc, project)?;
    let world = world_in(alloc, &mut store)?;
    ask_in(alloc, &mut store, &world)
}

fn resolved_text(alloc: Global, project: &str, budget: u32) -> Result<String, Lost> {
    let asked = ask(alloc, project)?;
    Ok(told(alloc, &asked.book, &asked.demand, budget)?)
}

#[test]
fn a_demand_is_resolved_or_refused(rt: HostRuntime) -> Result<(), Fail> {
    for (project, budget, want) in ROWS {
        let text = resolved_text(rt.alloc(), project, *budget)?;
        assert_eq!(rt; text.as_str(), *want);
    }
    Ok(())
}

/// Each class as its package, the state that stands for it, and its members.
fn table_text(alloc: Global, table: &ClassTable) -> Result<String, AllocError> {
    let mut text = String::new(alloc);
    for class in table.items() {
        let package = class.package;
        let standing = class.standing;
        text.push_str(format!(in alloc; "{package} {standing}:")?.as_str())?;
        for member in class.members.items() {
            text.push_str(format!(in alloc; " {member}")?.as_str())?;
        }
        text.push_str("\n")?;
    }
    Ok(text)
}

fn classes_text(alloc: Global, project: &str) -> Result<String, Lost> {
    let asked = ask(alloc, project)?;
    match class_table(alloc, &asked.book, &asked.demand) {
        Ok(table) => Ok(table_text(alloc, &table)?),
        Err(_) => Err(Lost::Memory),
    }
}

/// A project that needs C alone, whose two versions need nothing.
const C: &str = "[deps]\nC = \"00000000-0000-4000-8000-000000000005\"\n";

#[test]
fn classes_are_told(rt: HostRuntime) -> Result<(), Fail> {
    let apart = classes_text(rt.alloc(), A_AND_B)?;
    assert_eq!(rt;
        apart.as_str(),
        "0 0: 0\n0 1: 1\n1 0: 0\n1 1: 1\n2 0: 0\n2 1: 1\n"
    );
    let alike = classes_text(rt.alloc(), C)?;
    assert_eq!(rt; alike.as_str(), "0 1: 0 1\n");
    let none = classes_text(rt.alloc(), NEW_A)?;
    assert_eq!(rt; none.as_str(), "");
    Ok(())
}
