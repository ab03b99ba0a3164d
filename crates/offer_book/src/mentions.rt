//! The packages that were mentioned, in the order of their first mentions.
ghost use Rattle.std.specs.Prelude.{◌≡◌, ◌++◌, [], map, OnOk, IfOk};
ghost use Rattle.std.specs.Map.{keys_of};
ghost use Rattle.std.specs.Str.{bytes_eq};
ghost use Rattle.std.specs.List.{IsDistinct};
ghost use Rattle.offer_terms.specs.Offered.{offering};
ghost use Rattle.offer_book.specs.Made.{scope_of};
ghost use Rattle.offer_book.specs.Numbers as spec;

use indexmap::IndexMap;
use offer_terms::{Demand, Offer};
use pkg_world::{Duplicate, Ids, Name};
use std::alloc::{AllocError, Global};
use uuid::Uuid;

/// The packages that were mentioned, each with the name by which it was mentioned first.
pub(crate) type Mentions = IndexMap<Uuid, Name>;

/// The packages that a book begins with: the roots by their names, then the extra packages.
pub(crate) fn begun(alloc: Global, demand: &Demand, extra: &Ids) -> Result<Mentions, AllocError>
    ensures { IfOk result (λ mentions. mentions.entries ≡ spec.firsts (spec.start (scope_of demand.now) extra.now.items)) }
{
    let mut mentions = IndexMap::new(alloc);
    mention_all(alloc, &mut mentions, demand.roots.items())?;
    mention_extra(alloc, &mut mentions, extra.items())?;
    Ok(mentions)
}

/// The dependencies of offers, offer by offer and by their names.
pub(crate) fn mention_offers(
    alloc: Global,
    mentions: &mut Mentions,
    offers: &[Offer],
) -> Result<(), AllocError>
    ensures { OnOk result (mentions.new.entries ≡ spec.mention_all mentions.old.entries (spec.deps_offered (map offering offers.now))) }
{
    'offers: for offer in offers {
        mention_all(alloc, mentions, offer.deps.items())?;
    }
    Ok(())
}

fn mention_all(
    alloc: Global,
    mentions: &mut Mentions,
    list: &[(Name, Uuid)],
) -> Result<(), AllocError>
    ensures { OnOk result (mentions.new.entries ≡ spec.mention_all mentions.old.entries list.now) }
{
    for (name, uuid) in list {
        mention(alloc, mentions, name, *uuid)?;
    }
    Ok(())
}

fn mention_extra(alloc: Global, mentions: &mut Mentions, extra: &[Uuid]) -> Result<(), AllocError>
    ensures { OnOk result (mentions.new.entries ≡ spec.mention_all mentions.old.entries (map spec.unnamed extra.now)) }
{
    for uuid in extra {
        mention_unnamed(alloc, mentions, *uuid)?;
    }
    Ok(())
}

fn mention_unnamed(alloc: Global, mentions: &mut Mentions, uuid: Uuid) -> Result<(), AllocError>
    ensures { OnOk result (mentions.new.entries ≡ spec.mention mentions.old.entries (spec.unnamed uuid)) }
{
    let none = Name::of(alloc, "")?;
    mention(alloc, mentions, &none, uuid)
}

/// Puts a package behind the others, unless it is there.
fn mention(
    alloc: Global,
    mentions: &mut Mentions,
    name: &Name,
    uuid: Uuid,
) -> Result<(), AllocError>
    ensures { OnOk result (mentions.new.entries ≡ spec.mention mentions.old.entries (name.now, uuid)) }
{
    if mentions.contains_key(&uuid) {
        return Ok(());
    }
    mentions.insert(uuid, name.copy(alloc)?)?;
    Ok(())
}
