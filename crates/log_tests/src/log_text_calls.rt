//! Texts of logs that are read and printed, and texts that are none, with their first bad lines.
use log_text::{LogFault, print_log, read_log};
use pkg_world::Bytes;
use refutation_log::{Log, Node, NodeKind};
use std::alloc::Global;
use std::test::Fail;

/// Texts of logs. Whether the nodes are one whole tree isn't asked.
const READ: [&str; 8] = [
    // Two packages that need and refuse each other.
    "jlpkg-log 1 1\n- leaf\n",
    // Three packages, each version of which takes only the other number; the children in either order.
    "jlpkg-log 1 3\n- branch 0 2\n1 leaf\n0 leaf\n",
    "jlpkg-log 1 3\n- branch 0 2\n0 leaf\n1 leaf\n",
    // A child is left out, a branch has one child, and a package isn't there.
    "jlpkg-log 1 2\n- branch 0 2\n1 leaf\n",
    "jlpkg-log 1 2\n- branch 0 1\n1 leaf\n",
    "jlpkg-log 1 2\n- branch 9 1\n0 leaf\n",
    // No node at all, and the greatest numbers.
    "jlpkg-log 1 0\n",
    "jlpkg-log 1 2\n- branch 4294967295 4294967295\n4294967295 leaf\n",
];

/// Texts that are none, with their first bad lines.
const REFUSED: [(&str, u64); 36] = [
    // The first line.
    ("", 1),
    ("\n", 1),
    ("jlpkg-log 1 0", 1),
    ("jlpkg-log 2 1\n- leaf\n", 1),
    ("jlpkg-log 1\n", 1),
    ("jlpkg-log 1 \n", 1),
    ("jlpkg-log 1 00\n", 1),
    ("jlpkg-log 1 01\n- leaf\n", 1),
    ("jlpkg-log 1 +1\n- leaf\n", 1),
    ("jlpkg-log 1 1 \n- leaf\n", 1),
    ("jlpkg-log  1 1\n- leaf\n", 1),
    ("jlpkg-log 1 4294967296\n", 1),
    ("Jlpkg-log 1 1\n- leaf\n", 1),
    ("jlpkg-log 1 1\r\n- leaf\n", 1),
    // A node is missing, or its line has no end.
    ("jlpkg-log 1 1\n", 2),
    ("jlpkg-log 1 1\n- leaf", 2),
    ("jlpkg-log 1 3\n- branch 0 2\n1 leaf\n", 4),
    // Something follows.
    ("jlpkg-log 1 0\n\n", 2),
    ("jlpkg-log 1 1\n- leaf\n\n", 3),
    ("jlpkg-log 1 1\n- leaf\n0 leaf\n", 3),
    ("jlpkg-log 1 1\n- leaf\n0", 3),
    // The first node alone has no state.
    ("jlpkg-log 1 1\n0 leaf\n", 2),
    ("jlpkg-log 1 2\n- branch 0 1\n- leaf\n", 3),
    // Numbers.
    ("jlpkg-log 1 3\n- branch 0 2\n1 leaf\n00 leaf\n", 4),
    ("jlpkg-log 1 2\n- branch 00 1\n0 leaf\n", 2),
    ("jlpkg-log 1 2\n- branch 0 0\n0 leaf\n", 2),
    ("jlpkg-log 1 2\n- branch 0 01\n0 leaf\n", 2),
    ("jlpkg-log 1 2\n- branch 4294967296 1\n0 leaf\n", 2),
    ("jlpkg-log 1 2\n- branch 0 4294967296\n0 leaf\n", 2),
    ("jlpkg-log 1 2\n- branch 0 1\n4294967296 leaf\n", 3),
    ("jlpkg-log 1 2\n- branch 0 1\n-1 leaf\n", 3),
    // Words and spaces.
    ("jlpkg-log 1 1\n- Leaf\n", 2),
    ("jlpkg-log 1 1\n-  leaf\n", 2),
    ("jlpkg-log 1 1\n- leaf \n", 2),
    ("jlpkg-log 1 1\n- branch 0\n", 2),
    ("jlpkg-log 1 1\n- branch 0 1 1\n", 2),
];

// what is printed of the log that a text tells
fn printed_again(alloc: Global, text: &str) -> Result<Bytes, Fail> {
    let log = read_log(alloc, text.as_bytes())?;
    Ok(print_log(alloc, &log)?)
}

fn line_of(read: Result<Log, LogFault>) -> Option<u64> {
    match read {
        Ok(_) => None,
        Err(LogFault::BadLog(line)) => Some(line),
        Err(LogFault::Memory) => None,
    }
}

#[test]
fn texts_of_logs_read_and_print(rt: HostRuntime) -> Result<(), Fail> {
    for text in READ {
        let bytes = printed_again(rt.alloc(), text)?;
        assert!(rt; bytes.items() == text.as_bytes(), "{text}");
    }
    Ok(())
}

#[test]
fn other_texts_have_a_first_bad_line(rt: HostRuntime) {
    for (text, line) in REFUSED {
        assert_eq!(rt;
            line_of(read_log(rt.alloc(), text.as_bytes())),
            Some(line),
            "{text}"
        );
    }
}

fn leaf(state: u32) -> Node {
    Node {
        state: Some(state),
        kind: NodeKind::Leaf,
    }
}

fn branch(state: Option<u32>, package: u32, children: u32) -> Node {
    Node {
        state,
        kind: NodeKind::Branch { package, children },
    }
}

#[test]
fn a_log_is_printed(rt: HostRuntime) -> Result<(), Fail> {
    let mut log = Log::make(rt.alloc());
    for node in [branch(None, 10, 2), leaf(7), branch(Some(0), 3, 1), leaf(1)] {
        log.push(node)?;
    }
    let bytes = print_log(rt.alloc(), &log)?;
    let text = "jlpkg-log 1 4\n- branch 10 2\n7 leaf\n0 branch 3 1\n1 leaf\n";
    assert!(rt; bytes.items() == text.as_bytes());
    Ok(())
}
