//! Tables that are viewed and printed, and the values at their keys.
ghost use Rattle.std.specs.Prelude.{◌≤◌, IfOk};
ghost use Rattle.toml.specs.View.{table_view};
ghost use Rattle.toml_view.specs.Document.{nesting, nesting_limit};

use pkg_world::Text;
use std::alloc::{AllocError, Global};
use std::process::Abort;
use std::test::Fail;
use toml::value::{Date, Datetime};
use toml_view::{
    KeyFault, PrintFault, Table, Value, ViewFault, need_text, opt_text, print_table, text_or_list,
    uuid_table, view,
};

const FILE: &str = "text = \"x\"\nnumber = 5\nlist = [\"a\", \"b\"]\nmixed = [\"a\", 5]\n\
    [ids]\nB = \"22222222-2222-2222-2222-222222222222\"\nA = \"11111111111111111111111111111111\"\n\
    [bad]\nB = 5\nA = \"no\"\n";

fn told(answer: Result<Table, ViewFault>) -> &'static str {
    match answer {
        Ok(_) => "read",
        Err(ViewFault::BadToml) => "not TOML",
        Err(ViewFault::Deep) => "deep",
        Err(ViewFault::Memory) => "memory",
    }
}

/// A list of that many brackets at a key.
fn brackets(alloc: Global, count: usize) -> Result<String, AllocError> {
    let mut text = String::from_str(alloc, "k = ")?;
    for _ in 0..count {
        text.push('[')?;
    }
    for _ in 0..count {
        text.push(']')?;
    }
    Ok(text)
}

#[test]
fn nesting_passes_64_at_64_brackets(rt: HostRuntime) -> Result<(), Fail> {
    for (count, want) in [(1, "read"), (63, "read"), (64, "deep"), (79, "deep")] {
        let text = brackets(rt.alloc(), count)?;
        assert_eq!(rt; told(view(rt.alloc(), text.as_bytes())), want, "at {count}");
    }
    Ok(())
}

#[test]
fn bytes_that_are_no_text_or_no_toml_have_no_table(rt: HostRuntime) {
    for (bytes, want) in [
        (b"".as_slice(), "read"),
        (b"a = 1", "read"),
        (b"a = ", "not TOML"),
        (b"a = 1\na = 2", "not TOML"),
        (b"a = \"\xff\"", "not TOML"),
    ] {
        assert_eq!(rt; told(view(rt.alloc(), bytes)), want);
    }
}

#[derive(Clone, Copy, Debug)]
enum Getter {
    Need,
    Opt,
    Texts,
    Ids,
}

fn path<T: Drop>(answer: Result<T, KeyFault>) -> Option<Text> {
    match answer {
        Err(KeyFault::BadShape(path)) => Some(path),
        _ => None,
    }
}

fn refused(alloc: Global, getter: Getter, table: &Table, key: &str) -> Option<Text> {
    match getter {
        Getter::Need => path(need_text(alloc, table, key)),
        Getter::Opt => path(opt_text(alloc, table, key)),
        Getter::Texts => path(text_or_list(alloc, table, key)),
        Getter::Ids => path(uuid_table(alloc, table, key)),
    }
}

#[test]
fn another_kind_is_refused_at_its_key_path(rt: HostRuntime) -> Result<(), Fail> {
    let table = view(rt.alloc(), FILE.as_bytes())?;
    for (getter, key, want) in [
        (Getter::Need, "number", "number"),
        (Getter::Need, "absent", "absent"),
        (Getter::Opt, "list", "list"),
        (Getter::Texts, "number", "number"),
        (Getter::Texts, "mixed", "mixed"),
        (Getter::Ids, "text", "text"),
        (Getter::Ids, "bad", "bad.A"),
    ] {
        match refused(rt.alloc(), getter, &table, key) {
            Some(path) => assert_eq!(rt; path.as_str(), want, "{getter:?}"),
            None => assert!(rt; false, "{getter:?} of {key}"),
        }
    }
    Ok(())
}

fn has_texts_and_lists(rt: &impl Abort, alloc: Global, table: &Table) -> Result<(), Fail> {
    assert_eq!(rt; need_text(alloc, table, "text")?, "x");
    assert_eq!(rt; opt_text(alloc, table, "text")?, Some("x"));
    assert!(rt; opt_text(alloc, table, "absent")?.is_none());
    for (key, count) in [("text", 1), ("list", 2), ("absent", 0)] {
        assert_eq!(rt; text_or_list(alloc, table, key)?.items().len(), count);
    }
    Ok(())
}

#[test]
fn texts_and_lists_are_found(rt: HostRuntime) -> Result<(), Fail> {
    let table = view(rt.alloc(), FILE.as_bytes())?;
    has_texts_and_lists(&rt, rt.alloc(), &table)
}

fn has_identifiers(rt: &impl Abort, alloc: Global, table: &Table) -> Result<(), Fail> {
    assert_eq!(rt; uuid_table(alloc, table, "absent")?.items().len(), 0);
    let ids = uuid_table(alloc, table, "ids")?;
    assert_eq!(rt; ids.items().len(), 2);
    let (first, id) = &ids.items()[0];
    assert_eq!(rt; first.as_str(), "A");
    assert_eq!(rt; id.as_bytes()[0], 0x11);
    Ok(())
}

#[test]
fn identifiers_are_found_in_the_order_of_names(rt: HostRuntime) -> Result<(), Fail> {
    let table = view(rt.alloc(), FILE.as_bytes())?;
    has_identifiers(&rt, rt.alloc(), &table)
}

const PRINTED: &str =
    "d = 2026-02-28T23:59:00.5-03:30\nday = 2024-02-29\nf = 0.5\nn = -7\nt = \"\\u00e9 \\\"\\n\"\n\
    yes = true\nlist = [[1, 2], [], [{ k = 07:32:00 }]]\n[a]\n[a.\"b c\"]\nx = 1\n[[many]]\nx = 1\n[[many]]\n";

/// The table that the printed bytes of a table give.
fn again(alloc: Global, table: &Table) -> Result<Table, Fail>
    requires { nesting (table_view table.now) ≤ nesting_limit }
{
    let bytes = print_table(alloc, table)?;
    Ok(view(alloc, bytes.items())?)
}

#[test]
fn a_printed_table_reads_again_to_an_equal_table(rt: HostRuntime) -> Result<(), Fail> {
    let table = view(rt.alloc(), PRINTED.as_bytes())?;
    assert_eq!(rt; table.len(), 9);
    assert!(rt; again(rt.alloc(), &table)? == table);
    Ok(())
}

/// The table of one date at a key.
fn dated(alloc: Global, year: u16, month: u8, day: u8) -> Result<Table, AllocError>
    ensures { IfOk result (λ table. nesting (table_view table) ≤ nesting_limit) }
{
    let mut table = Table::new(alloc);
    let date = Datetime {
        date: Some(Date { year, month, day }),
        time: None,
        offset: None,
    };
    let _ = table.insert(String::from_str(alloc, "day")?, Value::Datetime(date))?;
    Ok(table)
}

fn printed(alloc: Global, table: &Table) -> &'static str
    requires { nesting (table_view table.now) ≤ nesting_limit }
{
    match print_table(alloc, table) {
        Ok(_) => "printed",
        Err(PrintFault::BadDate) => "bad date",
        Err(PrintFault::Memory) => "memory",
    }
}

#[test]
fn a_date_that_is_no_day_is_refused(rt: HostRuntime) -> Result<(), Fail> {
    for (year, month, day, want) in [
        (2024, 2, 29, "printed"),
        (2026, 2, 29, "bad date"),
        (2026, 13, 1, "bad date"),
    ] {
        let table = dated(rt.alloc(), year, month, day)?;
        assert_eq!(rt; printed(rt.alloc(), &table), want, "{year} {month} {day}");
    }
    Ok(())
}
