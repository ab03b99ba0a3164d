//! Specifiers and ranges that are read, and the versions that they hold.
use compat_spec::{Allowed, Range, RangeSet, Spec, SpecFault};
use jl_versions::Version;
use std::alloc::Global;
use std::test::Fail;

/// A text, two versions that it holds, and two texts of versions that it doesn't. An empty text is no version.
type Held = (&'static str, [&'static str; 2], [&'static str; 2]);

const SPECIFIERS: [Held; 33] = [
    // Carets raise the first number that is not zero.
    ("^1.2.3", ["1.2.3", "1.99.0"], ["1.2.2", "2.0.0"]),
    ("1.2.3", ["1.2.3", "1.99.0"], ["1.2.2", "2.0.0"]),
    ("^1.2", ["1.2.0", "1.9.9"], ["1.1.9", "2.0.0"]),
    ("^1", ["1.0.0", "1.9.9"], ["0.9.9", "2.0.0"]),
    ("^0.2.3", ["0.2.3", "0.2.9"], ["0.2.2", "0.3.0"]),
    ("^0.2", ["0.2.0", "0.2.9"], ["0.1.9", "0.3.0"]),
    ("^0.0.3", ["0.0.3", "0.0.3+7"], ["0.0.2", "0.0.4"]),
    // Zeros alone, and numbers alone, are carets.
    ("0.0.3", ["0.0.3", "0.0.3+7"], ["0.0.2", "0.0.4"]),
    ("^0.0", ["0.0.0", "0.0.9"], ["0.1.0", "1.0.0"]),
    ("0.0", ["0.0.0", "0.0.9"], ["0.1.0", "1.0.0"]),
    ("^0", ["0.0.0", "0.9.9"], ["1.0.0", "1.0.1"]),
    ("0.0.0", ["0.0.0", "0.0.0-a"], ["0.0.1", "0.1.0"]),
    ("007.08", ["7.8.0", "7.9.0"], ["7.7.9", "8.0.0"]),
    (
        "4294967295",
        ["4294967295.0.0", "4294967295.9.9"],
        ["4294967294.9.9", "0.0.0"],
    ),
    // Tildes raise the minor number.
    ("~1.2.3", ["1.2.3", "1.2.9"], ["1.2.2", "1.3.0"]),
    ("~1.2", ["1.2.0", "1.2.9"], ["1.1.9", "1.3.0"]),
    ("~1", ["1.0.0", "1.9.9"], ["0.9.9", "2.0.0"]),
    ("~0.2.3", ["0.2.3", "0.2.9"], ["0.2.2", "0.3.0"]),
    ("~0.0.3", ["0.0.3", "0.0.3-a"], ["0.0.2", "0.0.4"]),
    ("~0.0", ["0.0.0", "0.0.9"], ["0.1.0", "1.0.0"]),
    ("~0", ["0.0.0", "0.9.9"], ["1.0.0", "1.0.1"]),
    // Signs are an order.
    ("=1.2", ["1.2.0", "1.2.0-rc1"], ["1.1.9", "1.2.1"]),
    (">=1.2", ["1.2.0", "4294967295.0.0"], ["1.1.9", "0.9.9"]),
    ("≥1.2", ["1.2.0", "4294967295.0.0"], ["1.1.9", "0.9.9"]),
    ("<1.2", ["0.0.0", "1.1.9"], ["1.2.0", "1.2.1"]),
    // Hyphens hold both ends, and unions what one of theirs holds.
    ("1.2.3 - 4.5.6", ["1.2.3", "4.5.6"], ["1.2.2", "4.5.7"]),
    ("1.2.3 - 4.5", ["1.2.3", "4.5.9"], ["1.2.2", "4.6.0"]),
    ("1.2.3 - 4", ["1.2.3", "4.9.9"], ["1.2.2", "5.0.0"]),
    ("0.2 - 0", ["0.2.0", "0.9.9"], ["0.1.9", "1.0.0"]),
    ("1.2, 2", ["1.9.0", "2.0.0"], ["1.1.9", "3.0.0"]),
    (" v1  -  v2.1 ", ["1.0.0", "2.1.9"], ["0.9.9", "2.2.0"]),
    (" ^ v1.2 ,~2.3", ["1.9.9", "2.3.9"], ["2.2.9", "2.4.0"]),
    ("<1,= 2,*,3", ["0.0.0", "1.5.0"], ["", ""]),
];

const RANGES: [Held; 11] = [
    ("0.7-1", ["0.7.0", "1.9.9"], ["0.6.9", "2.0.0"]),
    ("1", ["1.0.0", "1.9.9"], ["0.9.9", "2.0.0"]),
    ("1.2", ["1.2.0", "1.2.9"], ["1.1.9", "1.3.0"]),
    ("1.2.3", ["1.2.3", "1.2.3+7"], ["1.2.2", "1.2.4"]),
    ("0.0-0.1", ["0.0.0", "0.1.9"], ["0.2.0", "1.0.0"]),
    ("1.2.3-1.2", ["1.2.3", "1.2.9"], ["1.2.2", "1.3.0"]),
    ("*-1.2", ["0.0.0", "1.2.9"], ["1.3.0", "2.0.0"]),
    ("1.2-*", ["1.2.0", "4294967295.0.0"], ["1.1.9", "0.0.0"]),
    (" v1 -v2.0 ", ["1.0.0", "2.0.9"], ["0.9.9", "2.1.0"]),
    (" *", ["0.0.0", "4294967295.0.0"], ["", ""]),
    ("007- 0009.0", ["7.0.0", "9.0.9"], ["6.9.9", "9.1.0"]),
];

/// Specifiers that hold no version.
const EMPTY: [&str; 4] = ["<0", "<0.0.0", "2 - 1", "1.2.1 - 1.2.0"];

/// Texts that are no specifiers, with their first bad places.
const REFUSED: [(&str, u64); 62] = [
    ("", 0),
    (" ", 1),
    (",", 0),
    ("1,", 2),
    (",1", 0),
    ("1.2,,1.3", 4),
    ("1, ,2", 3),
    ("1, 2,", 5),
    ("^", 1),
    ("~ ", 2),
    ("=", 1),
    ("<", 1),
    (">", 1),
    (">1", 1),
    ("> =1", 1),
    (">= ", 3),
    ("<=1", 1),
    ("==1", 1),
    ("~>1", 1),
    ("^^1", 1),
    ("!1", 0),
    ("1-2", 1),
    ("1- 2", 1),
    ("1 -2", 3),
    ("1 -", 3),
    ("1 - ", 4),
    ("1 - 2 - 3", 6),
    ("1 - *", 4),
    ("* - 1", 2),
    ("^1 - 2", 3),
    ("1 - ^2", 4),
    ("1 – 2", 2),
    ("1 2", 2),
    ("^1 2", 3),
    ("1. 2", 2),
    ("1 .2", 2),
    ("v", 1),
    ("v 1", 1),
    ("vv1", 1),
    ("v^1", 1),
    ("V1", 0),
    ("1.", 2),
    (".1", 0),
    ("1..2", 2),
    ("1.2.3.4", 5),
    ("1.2.3-rc1", 5),
    ("1.2.3+7", 5),
    ("1.x", 2),
    ("**", 1),
    ("v*", 1),
    ("1*", 1),
    ("4294967296", 9),
    ("1.4294967296", 11),
    ("00004294967296", 13),
    ("1 - 0.0.42949672950", 18),
    ("≥", 3),
    ("≥≥1", 3),
    ("≤1", 2),
    ("∀1", 1),
    ("é1", 0),
    ("\t1", 0),
    ("1\n", 1),
];

/// Texts that are no ranges, with their first bad places.
const REFUSED_RANGES: [(&str, u64); 24] = [
    ("", 0),
    ("  ", 2),
    ("-", 0),
    ("-1", 0),
    ("1-", 2),
    ("1 - ", 4),
    ("1--2", 2),
    ("1-2-3", 3),
    ("*-*-", 3),
    ("v*", 1),
    ("v-1", 1),
    ("1-v*", 3),
    ("*1", 1),
    ("* *", 2),
    ("1.*", 2),
    ("1 2", 2),
    ("1,2", 1),
    ("^1", 0),
    ("1.-2", 2),
    ("1.2.3.4", 5),
    ("1.2.3-rc1", 6),
    ("1-4294967296", 11),
    ("≥1", 0),
    ("1\t-2", 1),
];

/// Whether the version of a text is allowed. A text that is none isn't.
fn is_held(alloc: Global, allowed: &Allowed, text: &str) -> bool {
    match Version::read(alloc, text) {
        Ok(version) => allowed.holds(&version),
        Err(_) => false,
    }
}

/// Whether the row's first two versions are allowed, and the other two aren't.
fn divides(alloc: Global, allowed: &Allowed, row: &Held) -> bool {
    let (_, [first, last], [below, above]) = *row;
    is_held(alloc, allowed, first)
        && is_held(alloc, allowed, last)
        && !is_held(alloc, allowed, below)
        && !is_held(alloc, allowed, above)
}

/// The specifier of a text.
fn lone_specifier(alloc: Global, text: &str) -> Result<Allowed, SpecFault> {
    Ok(Allowed::Spec(Spec::read(alloc, text)?))
}

/// The range of a text, alone in its set.
fn lone_range(alloc: Global, text: &str) -> Result<Allowed, SpecFault> {
    let mut set = RangeSet::make(alloc);
    set.push(Range::read(alloc, text)?)?;
    Ok(Allowed::Ranges(set))
}

#[test]
fn specifiers_hold_what_stands_beside_them(rt: HostRuntime) -> Result<(), Fail> {
    for row in SPECIFIERS {
        let allowed = lone_specifier(rt.alloc(), row.0)?.copy(rt.alloc())?;
        let text = row.0;
        assert!(rt; divides(rt.alloc(), &allowed, &row), "{text}");
    }
    Ok(())
}

#[test]
fn ranges_hold_what_their_bounds_leave(rt: HostRuntime) -> Result<(), Fail> {
    for row in RANGES {
        let allowed = lone_range(rt.alloc(), row.0)?;
        let text = row.0;
        assert!(rt; divides(rt.alloc(), &allowed, &row), "{text}");
    }
    Ok(())
}

#[test]
fn some_specifiers_hold_nothing(rt: HostRuntime) -> Result<(), Fail> {
    for text in EMPTY {
        let spec = Spec::read(rt.alloc(), text)?;
        for triple in [
            [0, 0, 0],
            [0, 0, 1],
            [1, 2, 0],
            [1, 2, 1],
            [1, 5, 0],
            [2, 0, 0],
        ] {
            assert!(rt; !spec.holds(&Version::of(rt.alloc(), triple)), "{text}");
        }
    }
    Ok(())
}

/// The place of a refusal.
fn place_of<T: Drop>(read: Result<T, SpecFault>) -> Option<u64> {
    match read {
        Err(SpecFault::BadSpec(place)) => Some(place),
        _ => None,
    }
}

#[test]
fn refused_specifiers_have_their_places(rt: HostRuntime) {
    for (text, place) in REFUSED {
        assert_eq!(rt;
            place_of(Spec::read(rt.alloc(), text)),
            Some(place),
            "{text}"
        );
    }
}

#[test]
fn refused_ranges_have_their_places(rt: HostRuntime) {
    for (text, place) in REFUSED_RANGES {
        assert_eq!(rt;
            place_of(Range::read(rt.alloc(), text)),
            Some(place),
            "{text}"
        );
    }
}

#[test]
fn a_range_keeps_its_text(rt: HostRuntime) -> Result<(), Fail> {
    let range = Range::read(rt.alloc(), " v01 - 2")?;
    assert_eq!(rt; range.text(), " v01 - 2");
    Ok(())
}

/// The ranges `0.2` and `1.1-1.3`, put together by each of the list's calls.
fn two_ranges(alloc: Global) -> Result<RangeSet, SpecFault> {
    let mut set = RangeSet::make(alloc);
    set.reserve(1)?;
    set.push_spare(Range::read(alloc, "3")?);
    set.push(Range::read(alloc, "1.1-1.3")?)?;
    set.push(Range::read(alloc, "4")?)?;
    set.set(0, Range::read(alloc, "0.2")?);
    set.remove(2);
    Ok(set)
}

#[test]
fn a_set_holds_what_one_of_its_ranges_holds(rt: HostRuntime) -> Result<(), Fail> {
    let allowed = Allowed::Ranges(two_ranges(rt.alloc())?);
    let copied = allowed.copy(rt.alloc())?;
    for (triple, held) in [
        ([0, 2, 9], true),
        ([1, 2, 0], true),
        ([0, 3, 0], false),
        ([3, 0, 0], false),
    ] {
        assert_eq!(rt; allowed.holds(&Version::of(rt.alloc(), triple)), held);
        assert_eq!(rt; copied.holds(&Version::of(rt.alloc(), triple)), held);
    }
    Ok(())
}
