//! The names for which a stack is loaded.
ghost use Rattle.std.specs.Prelude.{◌≡◌, ◌∷◌, [], true, IfOk};
ghost use Rattle.env_maps.specs.ByName.{is_among};
ghost use Rattle.import_lookup.specs.Loading as spec;

use env_maps::Context;
use pkg_world::{Duplicate, Listed, Name, Names};
use std::alloc::{AllocError, Global};

/// The names for which an import reads files: the context's, which for an extension is that of the package that it extends,
/// and then the imported one, once where they are the same. A
/// stack that is loaded with them serves the import. The one error is want of memory.
#[tactic(auto, using(crate::proofs::Served::names_serve, crate::proofs::Served::names_have))]
pub fn names_of(alloc: Global, context: &Context, name: &Name) -> Result<Names, AllocError>
    ensures names { IfOk result (λ names. names.items ≡ spec.names_of context.now name.now) }
    ensures serves { spec.serves (spec.names_of context.now name.now) context.now ≡ true }
    ensures among { is_among name.now (spec.names_of context.now name.now) ≡ true }
{
    match context {
        Context::Top => only(alloc, name),
        Context::Package(id) => both(alloc, &id.name, name),
        Context::Extension(_, parent, _) => both(alloc, parent, name),
    }
}

fn both(alloc: Global, from: &Name, name: &Name) -> Result<Names, AllocError>
    ensures { IfOk result (λ names. names.items ≡ spec.both_names from.now name.now) }
{
    if from.as_str() == name.as_str() {
        return only(alloc, name);
    }
    let mut names = only(alloc, from)?;
    names.push(name.copy(alloc)?)?;
    Ok(names)
}

fn only(alloc: Global, name: &Name) -> Result<Names, AllocError>
    ensures { IfOk result (λ names. names.items ≡ name.now ∷ []) }
{
    let mut names = Listed::make(alloc);
    names.push(name.copy(alloc)?)?;
    Ok(names)
}
