//! The environments of the load path.
ghost use Rattle.std.specs.Prelude.{◌≡◌, ◌≤◌, ◌++◌, ◌∷◌, [], Ok, Some, IfSome, IfOk, IfErr, OnOk, MatchResult};
ghost use Rattle.std.specs.List.{flat_map};
ghost use Rattle.pkg_world.specs.Path.{pieces_at};
ghost use Rattle.pkg_world.specs.Each.{read_each};
ghost use Rattle.project_places.specs.Files.{Adds, Refuses};
ghost use Rattle.project_places.specs.Faults.{ReadFaultRose};
ghost use Rattle.import_lookup.specs.LoadPath as spec;

use crate::loaded::Environment;
use env_maps::{Element, EnvFault, ProjectEnv, element_of};
use pkg_world::{Listed, NormPath, Place, Store, Text, TextList, first_piece};
use std::alloc::{AllocError, Global};
use std::collections::VecDeque;

/// The elements of the load path's text, which colons part. An absent text and an empty element stand for `@`, `@v#.#` and
/// `@stdlib`; an empty text has no elements. (Julia manual, Code Loading.) The one error is want of memory.
pub(crate) fn elements(alloc: Global, text: &Option<Text>) -> Result<TextList, AllocError>
    ensures { IfOk result (λ list. list.items ≡ spec.elements text.now) }
{
    match text {
        Some(text) => elements_of_text(alloc, text.as_str()),
        None => default_elements(alloc),
    }
}

fn default_elements(alloc: Global) -> Result<TextList, AllocError>
    ensures { IfOk result (λ list. list.items ≡ spec.default_elements) }
{
    let mut list = Listed::make(alloc);
    push_defaults(alloc, &mut list)?;
    Ok(list)
}

fn elements_of_text(alloc: Global, text: &str) -> Result<TextList, AllocError>
    ensures { IfOk result (λ list. list.items ≡ spec.elements (Some text.now)) }
{
    let mut list = Listed::make(alloc);
    if !text.is_empty() {
        push_elements(alloc, &mut list, text)?;
    }
    Ok(list)
}

/// Appends the elements of a text.
fn push_elements(alloc: Global, list: &mut TextList, text: &str) -> Result<(), AllocError>
    ensures { OnOk result (list.new.items ≡ list.old.items ++ flat_map spec.elements_of (pieces_at 58 text.now)) }
{
    let mut rest = text;
    loop {
        match first_piece(rest, ':') {
            Some((piece, more)) => {
                push_element(alloc, list, piece)?;
                rest = more;
            }
            None => {
                push_element(alloc, list, rest)?;
                return Ok(());
            }
        }
    }
}

/// Appends the elements that a piece between colons stands for.
fn push_element(alloc: Global, list: &mut TextList, piece: &str) -> Result<(), AllocError>
    ensures { OnOk result (list.new.items ≡ list.old.items ++ spec.elements_of piece.now) }
{
    if piece.is_empty() {
        return push_defaults(alloc, list);
    }
    list.push(Text::of(alloc, piece)?)
}

fn push_defaults(alloc: Global, list: &mut TextList) -> Result<(), AllocError>
    ensures { OnOk result (list.new.items ≡ list.old.items ++ spec.default_elements) }
{
    list.push(Text::of(alloc, "@")?)?;
    list.push(Text::of(alloc, "@v#.#")?)?;
    list.push(Text::of(alloc, "@stdlib")?)
}

/// The environments of these elements, in their order; those without entries are left out.
///
/// Errors: BadFile, exactly at the first project file or manifest that is refused; ReadFault, where the store can't read;
/// want of memory.
pub(crate) fn environments<S: Store>(
    alloc: Global,
    store: &mut S,
    place: &Place,
    texts: &[Text],
) -> Result<VecDeque<Environment>, EnvFault>
    ensures told { IfSome (S.files store.old) (λ all. MatchResult result (λ list. read_each (spec.environment_of all place.now) texts.now ≡ Ok list.items) (Refuses (read_each (spec.environment_of all place.now) texts.now))) }
    ensures fault { IfErr result (ReadFaultRose (S.read_faults store.old) (S.read_faults store.new)) }
    ensures files { S.files store.new ≡ S.files store.old }
    ensures later { S.read_faults store.old ≤ S.read_faults store.new }
    ensures other { S.write_faults store.new ≡ S.write_faults store.old }
{
    let mut list = VecDeque::new(alloc);
    match add_environments(alloc, store, place, texts, &mut list) {
        Ok(()) => Ok(list),
        Err(fault) => Err(fault),
    }
}

fn add_environments<S: Store>(
    alloc: Global,
    store: &mut S,
    place: &Place,
    texts: &[Text],
    list: &mut VecDeque<Environment>,
) -> Result<(), EnvFault>
    ensures told { IfSome (S.files store.old) (λ all. Adds (read_each (spec.environment_of all place.now) texts.now) list.old.items list.new.items result) }
    ensures fault { IfErr result (ReadFaultRose (S.read_faults store.old) (S.read_faults store.new)) }
    ensures files { S.files store.new ≡ S.files store.old }
    ensures later { S.read_faults store.old ≤ S.read_faults store.new }
    ensures other { S.write_faults store.new ≡ S.write_faults store.old }
{
    'texts: for text in texts {
        match add_environment(alloc, store, place, text, list) {
            Ok(()) => {}
            Err(fault) => return Err(fault),
        }
    }
    Ok(())
}

fn add_environment<S: Store>(
    alloc: Global,
    store: &mut S,
    place: &Place,
    text: &Text,
    list: &mut VecDeque<Environment>,
) -> Result<(), EnvFault>
    ensures told { IfSome (S.files store.old) (λ all. Adds (spec.environment_of all place.now text.now) list.old.items list.new.items result) }
    ensures fault { IfErr result (ReadFaultRose (S.read_faults store.old) (S.read_faults store.new)) }
    ensures files { S.files store.new ≡ S.files store.old }
    ensures later { S.read_faults store.old ≤ S.read_faults store.new }
    ensures other { S.write_faults store.new ≡ S.write_faults store.old }
{
    match element_of(alloc, store, place, text.as_str()) {
        Ok(Element::Project(file)) => add_project(alloc, store, place, &file, list),
        Ok(Element::Folder(folder)) => push(list, Environment::Folder(folder)),
        Ok(Element::Nothing) => Ok(()),
        Err(fault) => Err(fault),
    }
}

fn add_project<S: Store>(
    alloc: Global,
    store: &mut S,
    place: &Place,
    file: &NormPath,
    list: &mut VecDeque<Environment>,
) -> Result<(), EnvFault>
    ensures told { IfSome (S.files store.old) (λ all. Adds (spec.environment_at all place.now (Element.Project file.now)) list.old.items list.new.items result) }
    ensures fault { IfErr result (ReadFaultRose (S.read_faults store.old) (S.read_faults store.new)) }
    ensures files { S.files store.new ≡ S.files store.old }
    ensures later { S.read_faults store.old ≤ S.read_faults store.new }
    ensures other { S.write_faults store.new ≡ S.write_faults store.old }
{
    match ProjectEnv::load(alloc, store, place, file) {
        Ok(env) => push(list, Environment::Project(env)),
        Err(fault) => Err(fault),
    }
}

/// Appends an environment. The one error is want of memory.
fn push(list: &mut VecDeque<Environment>, env: Environment) -> Result<(), EnvFault>
    ensures ok { OnOk result (list.new.items ≡ list.old.items ++ env ∷ []) }
    ensures err { IfErr result (λ fault. fault ≡ EnvFault.Memory) }
{
    match list.push_back(env) {
        Ok(()) => Ok(()),
        Err(_) => Err(EnvFault::Memory),
    }
}
