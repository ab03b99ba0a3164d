//! What weights of three levels add up to, how they compare, and what they are clipped to.
use lex_weights::{Level, Lex, Lex3, Weight};
use std::test::Fail;

const LIMIT: i64 = 1 << 40;

pub(crate) fn weight(first: i64, second: i64, third: i64) -> Lex3 {
    Lex(Level(first), Lex(Level(second), Level(third)))
}

#[test]
fn the_first_level_decides(rt: HostRuntime) -> Result<(), Fail> {
    let greater = weight(0, 1, 0);
    let lesser = weight(-1, 1, 0);
    assert!(rt; lesser < greater);
    assert!(rt; weight(0, 1, 7) > greater);
    assert!(rt; Lex3::zero() == weight(0, 0, 0));
    Ok(())
}

#[test]
fn a_clipped_level_leaves_zero_after_it(rt: HostRuntime) -> Result<(), Fail> {
    let small = weight(3, -4, 5);
    assert!(rt; small.clip() == small);
    assert!(rt; weight(LIMIT - 1, 7, LIMIT + 1).clip() == weight(LIMIT - 1, 7, LIMIT));
    assert!(rt; weight(LIMIT + 5, 7, 7).clip() == weight(LIMIT, 0, 0));
    assert!(rt; weight(1, -LIMIT - 5, 7).clip() == weight(1, -LIMIT, 0));
    Ok(())
}
