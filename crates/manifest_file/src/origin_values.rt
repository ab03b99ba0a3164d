//! The values of the keys that say where a package comes from.
ghost use Rattle.std.specs.Prelude.{◌≡◌, IfOk, option_map};
ghost use Rattle.toml.specs.View.{view};
ghost use Rattle.manifest_file.specs.Written as spec;
ghost use Rattle.manifest_file.specs.ReadsBack.{OriginBack};

use crate::origin::Origin;
use crate::written::{name_or_none, name_value, tree_value};
use std::alloc::{AllocError, Global};
use toml_view::Value;

pub(crate) fn tree_of(alloc: Global, origin: &Origin) -> Result<Option<Value>, AllocError>
    ensures data { IfOk result (λ value. option_map view value ≡ spec.tree_data origin.now) }
    ensures back { IfOk result (λ value. OriginBack origin.now) }
{
    match origin {
        Origin::Tree(tree) => Ok(Some(tree_value(alloc, tree)?)),
        Origin::Path(_) => Ok(None),
        Origin::Repo { tree, .. } => Ok(Some(tree_value(alloc, tree)?)),
        Origin::Std => Ok(None),
    }
}

pub(crate) fn path_of(alloc: Global, origin: &Origin) -> Result<Option<Value>, AllocError>
    ensures { IfOk result (λ value. option_map view value ≡ spec.path_data origin.now) }
{
    match origin {
        Origin::Path(path) => Ok(Some(name_value(alloc, path)?)),
        Origin::Tree(_) => Ok(None),
        Origin::Repo { .. } => Ok(None),
        Origin::Std => Ok(None),
    }
}

pub(crate) fn url_of(alloc: Global, origin: &Origin) -> Result<Option<Value>, AllocError>
    ensures { IfOk result (λ value. option_map view value ≡ spec.url_data origin.now) }
{
    match origin {
        Origin::Repo { url, .. } => Ok(Some(name_value(alloc, url)?)),
        Origin::Tree(_) => Ok(None),
        Origin::Path(_) => Ok(None),
        Origin::Std => Ok(None),
    }
}

pub(crate) fn rev_of(alloc: Global, origin: &Origin) -> Result<Option<Value>, AllocError>
    ensures { IfOk result (λ value. option_map view value ≡ spec.rev_data origin.now) }
{
    match origin {
        Origin::Repo { rev, .. } => name_or_none(alloc, rev),
        Origin::Tree(_) => Ok(None),
        Origin::Path(_) => Ok(None),
        Origin::Std => Ok(None),
    }
}

pub(crate) fn subdir_of(alloc: Global, origin: &Origin) -> Result<Option<Value>, AllocError>
    ensures { IfOk result (λ value. option_map view value ≡ spec.subdir_data origin.now) }
{
    match origin {
        Origin::Repo { subdir, .. } => name_or_none(alloc, subdir),
        Origin::Tree(_) => Ok(None),
        Origin::Path(_) => Ok(None),
        Origin::Std => Ok(None),
    }
}
