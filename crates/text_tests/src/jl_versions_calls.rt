//! Versions that are read, printed and compared.
use jl_versions::{Ident, Version, VersionFault};
use std::alloc::Global;
use std::process::Abort;
use std::test::Fail;

/// Texts that are no versions, with the length of the longest front that begins one.
const REFUSED: [(&str, u64); 40] = [
    ("", 0),
    ("v", 1),
    ("V1", 0),
    ("vv1", 1),
    ("v.1", 1),
    ("v-1", 1),
    (" 1", 0),
    ("1 ", 1),
    ("1.", 2),
    ("1.2.", 4),
    ("1..2", 2),
    (".1", 0),
    ("1.2.3.", 5),
    ("1.2.3.4", 5),
    ("a", 0),
    ("1a", 1),
    ("1,2", 1),
    ("-1", 0),
    ("+1", 0),
    ("1-", 2),
    ("1.0.0-", 6),
    ("1.0.0+", 6),
    ("1.0.0-.", 6),
    ("1.0.0-a.", 8),
    ("1.0.0-a..b", 8),
    ("1.0.0-+b", 6),
    ("1.0.0+a+b", 7),
    ("1.0.0-a_b", 7),
    ("1.0.0-a b", 7),
    ("1.0.0\n", 5),
    ("1.0.0-é", 6),
    ("1≥", 1),
    ("4294967296", 9),
    ("4294967296.0.0", 9),
    ("1.4294967296", 11),
    ("1.2.99999999999", 13),
    ("00004294967296", 13),
    ("1.0.0-18446744073709551616", 26),
    ("1.0.0-18446744073709551616.1", 26),
    ("1.0.0+0.18446744073709551616", 28),
];

/// Version texts, with what they are printed as.
const PRINTED: [(&str, &str); 13] = [
    ("1", "1.0.0"),
    ("v1.2", "1.2.0"),
    ("007.08", "7.8.0"),
    ("4294967295.0.0", "4294967295.0.0"),
    ("0.0.00004294967295", "0.0.4294967295"),
    ("1.0.0-007", "1.0.0-7"),
    ("1-a", "1.0.0-a"),
    ("v1+0", "1.0.0+0"),
    ("1.0.0--", "1.0.0--"),
    ("1.2.3-rc.1+b-2.00x", "1.2.3-rc.1+b-2.00x"),
    ("1.0.0-18446744073709551615", "1.0.0-18446744073709551615"),
    ("1.0.0-18446744073709551616a", "1.0.0-18446744073709551616a"),
    ("1.0.0+00000000000000000000000012.Z", "1.0.0+12.Z"),
];

/// Version texts, each below the next one.
const RISING: [&str; 11] = [
    "0.9.9+z",
    "1.0.0-2",
    "1.0.0-10",
    "1.0.0-A",
    "1.0.0-a",
    "1.0.0-a.1",
    "1.0.0-a.1+0",
    "1.0.0",
    "1.0.0+0",
    "1.0.0+1",
    "1.0.1-2",
];

#[test]
fn refused_texts_have_their_places(rt: HostRuntime) {
    for (text, place) in REFUSED {
        let found = match Version::read(rt.alloc(), text) {
            Err(VersionFault::BadVersion(found)) => Some(found),
            _ => None,
        };
        assert_eq!(rt; found, Some(place), "{text}");
    }
}

#[test]
fn versions_are_printed_and_read_again(rt: HostRuntime) -> Result<(), Fail> {
    for (text, wanted) in PRINTED {
        let version = Version::read(rt.alloc(), text)?;
        let printed = version.print(rt.alloc())?;
        assert_eq!(rt; printed.as_str(), wanted);
        let again = Version::read(rt.alloc(), printed.as_str())?;
        assert!(rt; again == version);
    }
    Ok(())
}

fn is_below(rt: &impl Abort, alloc: Global, version: &Version, above: &str) -> Result<(), Fail> {
    let greater = Version::read(alloc, above)?;
    assert!(rt; *version < greater, "below {above}");
    assert!(rt; *version != greater);
    Ok(())
}

#[test]
fn versions_rise(rt: HostRuntime) -> Result<(), Fail> {
    for (place, text) in RISING.iter().enumerate() {
        let version = Version::read(rt.alloc(), text)?;
        for above in &RISING[place + 1..] {
            is_below(&rt, rt.alloc(), &version, above)?;
        }
        assert!(rt; version.copy(rt.alloc())? == version);
    }
    Ok(())
}

#[test]
fn parts_of_a_version(rt: HostRuntime) -> Result<(), Fail> {
    let release = Version::of(rt.alloc(), [1, 2, 3]);
    assert!(rt; release.triple() == [1, 2, 3]);
    assert!(rt; release == Version::read(rt.alloc(), "1.2.3")?);
    let version = Version::read(rt.alloc(), "1.2.3-a.7")?;
    assert_eq!(rt; version.build.items().len(), 0);
    let found = match version.pre.items() {
        [Ident::Word(word), Ident::Number(number)] => word.as_str() == "a" && *number == 7,
        _ => false,
    };
    assert!(rt; found);
    Ok(())
}
