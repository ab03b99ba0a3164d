//! The classes of states that pruning makes.
ghost use Rattle.std.specs.Prelude.{◌≡◌, ◌≢◌, ◌<◌, ◌&&◌, ◌==◌, ◌∷◌, ◌++◌, ℕ, true, [], length, map, slice_index_or, if◌then◌else◌, IfOk, IfErr, OnOk};
ghost use Rattle.offer_terms.specs.Demanded.{wanted};
ghost use Rattle.version_graph.specs.Graph.{packages, states};
ghost use Rattle.version_graph.specs.Domain.{row, has};
ghost use Rattle.graph_pruning.specs.Marked.{marked, does_stand, standing_in};
ghost use Rattle.book_graph.specs.Limits.{IsPast};
ghost use Rattle.resolve_core.specs.Classed as spec;

use book_graph::make_instance;
use graph_pruning::{Classes, Pruned, prune};
use offer_terms::{Book, Demand};
use pkg_world::{Listed, States};
use std::alloc::{AllocError, Global};
use version_graph::{Domains, GraphFault, Instance, Trail, held_is_offered, offered_is_known};

/// Some states of a package that allow the same states of every other package, and the greatest of them, which stands for
/// all.
#[derive(Drop)]
pub struct Class {
    pub package: u32,
    pub standing: u32,
    pub members: States,
}

/// The classes of kept packages, by package and then by the state that stands for the class.
pub type ClassTable = Listed<Class>;

/// The classes that pruning makes of the instance that stands for the book and the demand: those of each package that is
/// reached from the roots. Where no selection is feasible there may be none. Refused where a limit of instances is passed, and
/// for want of memory.
pub fn class_table(alloc: Global, book: &Book, demand: &Demand) -> Result<ClassTable, GraphFault>
    ensures table { IfOk result (λ table. spec.AreClassesOf book.now (wanted demand.now) table.items) }
    ensures past { IfErr result (IsPast book.now (wanted demand.now)) }
{
    match make_instance(alloc, book, demand) {
        Ok(instance) => Ok(classes_in(alloc, &instance)?),
        Err(fault) => Err(fault),
    }
}

/// The classes that pruning makes of the instance.
fn classes_in(alloc: Global, instance: &Instance) -> Result<ClassTable, AllocError>
    ensures { IfOk result (λ table. spec.AreClassesIn instance.now table.items) }
{
    held_is_offered();
    offered_is_known();
    let mut domains = Domains::full(alloc, instance)?;
    let mut trail = Trail::make(alloc, instance)?;
    let pruned = prune(alloc, instance, &mut domains, &mut trail)?;
    classes_left(alloc, instance, &domains, &pruned)
}

/// The classes of the kept packages, by what is left of their domains.
fn classes_left(
    alloc: Global,
    instance: &Instance,
    domains: &Domains,
    pruned: &Pruned,
) -> Result<ClassTable, AllocError>
    requires marks { length pruned.now.kept ≡ packages instance.now }
    requires made { (p : ℕ) → p < packages instance.now → spec.HasStates domains.now pruned.now.classes p (states instance.now p) }
    ensures { IfOk result (λ table. map spec.class_said table.items ≡ spec.classes_below instance.now (has domains.now) (standing_in pruned.now.classes) (marked pruned.now.kept) (packages instance.now)) }
{
    let mut table = Listed::make(alloc);
    for package in 0..instance.packages() {
        push_if_kept(alloc, instance, domains, pruned, package, &mut table)?;
    }
    Ok(table)
}

/// Adds the classes of the package, if it is kept.
fn push_if_kept(
    alloc: Global,
    instance: &Instance,
    domains: &Domains,
    pruned: &Pruned,
    package: u32,
    table: &mut ClassTable,
) -> Result<(), AllocError>
    requires known { «package» < packages instance.now }
    requires marks { length pruned.now.kept ≡ packages instance.now }
    requires made { spec.HasStates domains.now pruned.now.classes «package» (states instance.now «package») }
    ensures { OnOk result (map spec.class_said table.new.items ≡ map spec.class_said table.old.items
        ++ (if marked pruned.now.kept «package» then spec.classes_of (has domains.now) (standing_in pruned.now.classes) «package» (states instance.now «package») else [])) }
{
    if !pruned.kept.has(package) {
        return Ok(());
    }
    let count = instance.states(package);
    push_classes(alloc, domains, &pruned.classes, package, count, table)?;
    Ok(())
}

/// Adds the classes of a package, which has so many states.
fn push_classes(
    alloc: Global,
    domains: &Domains,
    classes: &Classes,
    package: u32,
    count: u32,
    table: &mut ClassTable,
) -> Result<(), AllocError>
    requires { spec.HasStates domains.now classes.now «package» count }
    ensures { OnOk result (map spec.class_said table.new.items ≡ map spec.class_said table.old.items ++ spec.classes_of (has domains.now) (standing_in classes.now) «package» count) }
{
    let members = members_of(alloc, domains, classes, package, count)?;
    for state in 0..count {
        let states = &members[state as usize];
        push_if_standing(alloc, domains, classes, package, state, states, table)?;
    }
    Ok(())
}

/// Adds the class of the state, with these members, if the state is left and stands for its class.
fn push_if_standing(
    alloc: Global,
    domains: &Domains,
    classes: &Classes,
    package: u32,
    state: u32,
    members: &States,
    table: &mut ClassTable,
) -> Result<(), AllocError>
    requires known { «package» < length domains.now }
    requires state { state < length (row domains.now «package») }
    requires listed { «package» < length classes.now }
    requires long { state < length (slice_index_or classes.now «package» []) }
    ensures { OnOk result (map spec.class_said table.new.items ≡ map spec.class_said table.old.items
        ++ (if does_stand (has domains.now) (standing_in classes.now) «package» state then record { number = «package»; standing = state; members = members.now.items } ∷ [] else [])) }
{
    if !does_stand(domains, classes, package, state) {
        return Ok(());
    }
    push_class(alloc, package, state, members, table)?;
    Ok(())
}

/// Adds the class of the state, with these members.
fn push_class(
    alloc: Global,
    package: u32,
    standing: u32,
    members: &States,
    table: &mut ClassTable,
) -> Result<(), AllocError>
    ensures { OnOk result (map spec.class_said table.new.items ≡ map spec.class_said table.old.items ++ record { number = «package»; standing = standing; members = members.now.items } ∷ []) }
{
    let members = members.copy(alloc)?;
    table.push(Class {
        package,
        standing,
        members,
    })
}

/// Whether the state is left and stands for its class.
fn does_stand(domains: &Domains, classes: &Classes, package: u32, state: u32) -> bool
    requires known { «package» < length domains.now }
    requires state { state < length (row domains.now «package») }
    requires listed { «package» < length classes.now }
    requires long { state < length (slice_index_or classes.now «package» []) }
    ensures { result ≡ does_stand (has domains.now) (standing_in classes.now) «package» state }
{
    domains.has(package, state) && classes.standing(package, state) == state
}

/// For each state of the package the states for which it stands.
fn members_of(
    alloc: Global,
    domains: &Domains,
    classes: &Classes,
    package: u32,
    count: u32,
) -> Result<Vec<States>, AllocError>
    requires { spec.HasStates domains.now classes.now «package» count }
    ensures each { IfOk result (λ members. length members.items ≡ count) }
    ensures members { IfOk result (λ members. (s : ℕ) → s < count → spec.items_at members.items s ≡ spec.members_of (has domains.now) (standing_in classes.now) «package» count s) }
{
    let mut members = empty_lists(alloc, count)?;
    for state in 0..count {
        list_state(domains, classes, package, state, &mut members)?;
    }
    Ok(members)
}

/// Adds the state to the members of the state that stands for it, if it is left.
fn list_state(
    domains: &Domains,
    classes: &Classes,
    package: u32,
    state: u32,
    members: &mut Vec<States>,
) -> Result<(), AllocError>
    requires made { spec.HasStates domains.now classes.now «package» (length members.old.items) }
    requires inside { state < length members.old.items }
    ensures each { length members.new.items ≡ length members.old.items }
    ensures lists { OnOk result ((s : ℕ) → s < length members.old.items → spec.items_at members.new.items s ≡ spec.items_at members.old.items s
        ++ (if has domains.now «package» state && (standing_in classes.now «package» state == s) then state ∷ [] else [])) }
{
    if !domains.has(package, state) {
        return Ok(());
    }
    let standing = classes.standing(package, state);
    add_member(members, standing, state)?;
    Ok(())
}

/// So many empty lists.
fn empty_lists(alloc: Global, count: u32) -> Result<Vec<States>, AllocError>
    ensures each { IfOk result (λ lists. length lists.items ≡ count) }
    ensures empty { IfOk result (λ lists. (s : ℕ) → s < count → spec.items_at lists.items s ≡ []) }
{
    let mut lists = Vec::new(alloc);
    for _state in 0..count {
        lists.push(States::make(alloc))?;
    }
    Ok(lists)
}

/// Appends the state to the list in that place.
fn add_member(lists: &mut Vec<States>, place: u32, state: u32) -> Result<(), AllocError>
    requires { place < length lists.old.items }
    ensures each { length lists.new.items ≡ length lists.old.items }
    ensures here { OnOk result (spec.items_at lists.new.items place ≡ spec.items_at lists.old.items place ++ state ∷ []) }
    ensures others { OnOk result ((s : ℕ) → s ≢ place → spec.items_at lists.new.items s ≡ spec.items_at lists.old.items s) }
{
    let list = &mut lists[place as usize];
    list.push(state)?;
    Ok(())
}
