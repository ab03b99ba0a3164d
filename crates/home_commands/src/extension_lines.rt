//! The lines of extensions.
ghost use Rattle.std.specs.Prelude.{◌≡◌, ◌++◌, ◌∷◌, [], true, codes, IfOk, OnOk, map, string_bytes};
ghost use Rattle.manifest_file.specs.Said.{said_stanza};
ghost use Rattle.manifest_file.specs.Steps.{has_id};
ghost use Rattle.home_commands.specs.ExtensionLines as spec;

use extension_rules::{IdSet, id_set, is_active};
use manifest_file::Stanza;
use pkg_world::{Ids, Listed, Name};
use std::alloc::{AllocError, Global};

/// Appends a line for each extension of each stanza: its name, its parent's, and whether it is active, which it is where
/// all its triggers have stanzas.
pub(crate) fn push_extensions(
    alloc: Global,
    text: &mut String,
    stanzas: &[Stanza],
) -> Result<(), AllocError>
    ensures { OnOk result (string_bytes text.new ≡ string_bytes text.old ++ spec.extension_lines true (map said_stanza stanzas.now)) }
{
    let ids = ids_of(alloc, stanzas)?;
    let has = id_set(alloc, ids.items())?;
    push_by(alloc, text, &has, stanzas)
}

/// The identifiers of the stanzas.
fn ids_of(alloc: Global, stanzas: &[Stanza]) -> Result<Ids, AllocError>
    ensures { IfOk result (λ ids. ids.items ≡ map (λ stanza. stanza.uuid) (map said_stanza stanzas.now)) }
{
    let mut ids = Listed::make(alloc);
    for stanza in stanzas {
        ids.push(stanza.uuid)?;
    }
    Ok(ids)
}

fn push_by(
    alloc: Global,
    text: &mut String,
    has: &IdSet,
    stanzas: &[Stanza],
) -> Result<(), AllocError>
    ensures { OnOk result (string_bytes text.new ≡ string_bytes text.old ++ spec.lines_by (has_id has.now) (map said_stanza stanzas.now)) }
{
    for stanza in stanzas {
        push_of(alloc, text, has, stanza)?;
    }
    Ok(())
}

/// Appends the lines of a stanza's extensions.
fn push_of(alloc: Global, text: &mut String, has: &IdSet, stanza: &Stanza) -> Result<(), AllocError>
    ensures { OnOk result (string_bytes text.new ≡ string_bytes text.old ++ spec.lines_named (has_id has.now) (said_stanza stanza.now) stanza.now.extensions.items) }
{
    for (name, triggers) in stanza.extensions.items() {
        push_line(
            alloc,
            text,
            name,
            &stanza.name,
            is_active(has, stanza, triggers.items()),
        )?;
    }
    Ok(())
}

fn push_line(
    alloc: Global,
    text: &mut String,
    extension: &Name,
    parent: &Name,
    active: bool,
) -> Result<(), AllocError>
    ensures { OnOk result (string_bytes text.new ≡ string_bytes text.old ++ spec.extension_line extension.now parent.now active) }
{
    let line = line_of(
        alloc,
        extension.as_str(),
        parent.as_str(),
        activity_text(active),
    )?;
    text.push_str(line.as_str())?;
    Ok(())
}

fn line_of(
    alloc: Global,
    extension: &str,
    parent: &str,
    activity: &str,
) -> Result<String, AllocError>
    ensures { IfOk result (λ line. string_bytes line ≡ codes "extension " ++ (extension.now ++ (codes " " ++ (parent.now ++ (codes " " ++ (activity.now ++ 10 ∷ [])))))) }
{
    format!(in alloc; "extension {extension} {parent} {activity}\n")
}

fn activity_text(active: bool) -> &'static str
    ensures { result.now ≡ spec.activity_text active }
{
    if active { "active" } else { "inactive" }
}
