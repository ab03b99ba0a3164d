//! Lists by identifiers: that their calls succeed where memory is ample.
use offer_terms::Selection;
use std::alloc::{AllocError, Global};
use std::test::Fail;
use uuid::Uuid;

/// An empty selection with room for three packages.
fn with_room(alloc: Global) -> Result<Selection, AllocError> {
    let mut list = Selection::make(alloc);
    list.reserve(3)?;
    Ok(list)
}

#[test]
fn room_holds_no_package(rt: HostRuntime) -> Result<(), Fail> {
    let list = with_room(rt.alloc())?;
    assert!(rt; list.items().is_empty());
    assert!(rt; list.place_of(&Uuid::nil()).is_none());
    assert!(rt; list.version_of(&Uuid::nil()).is_none());
    Ok(())
}
