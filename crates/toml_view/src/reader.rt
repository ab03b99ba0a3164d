//! Readers of values, and what they give at the keys of a table. A chain of these in the order of the keys' bytes stops at
//! the first refusal in key order, with its path.
ghost use Rattle.std.specs.Prelude.{◌≡◌, Ok, IfOk, IfErr};
ghost use Rattle.toml.specs.View.{view, table_view};
ghost use Rattle.toml_view.specs.Reading.{shape, at, opt, need};
ghost use Rattle.toml_view.specs.Answers.{Refuses, HasPath, IsRaised};

use crate::keys::member;
use crate::refusal::{Flaw, Refusal, Stop, raised};
use std::alloc::Global;
use toml::{Table, Value};

/// What reads a value.
pub trait Reader {
    ghost use Rattle.std.specs.Prelude.{Result};
    ghost use Rattle.toml.specs.Data.{Data};
    ghost use Rattle.toml_view.specs.declared.refusal.Refusal.{Refusal};

    /// What is read.
    type Out: Drop;

    ghost gives: { Self → Data → Result Self.Out Refusal };

    /// What the value means, or why it is refused.
    fn read(&self, alloc: Global, value: &Value) -> Result<Self::Out, Stop>
        ensures ok { IfOk result (λ out. gives self.now (view value.now) ≡ Ok out) }
        ensures err { IfErr result (λ stop. Refuses stop (gives self.now (view value.now))) };
}

/// The refusal of a value of another kind.
pub fn other_shape() -> Stop
    ensures { result ≡ Stop.Refused shape }
{
    Stop::Refused(Refusal {
        path: None,
        flaw: Flaw::Shape,
    })
}

/// What a reader gives for the value at that key, a refusal as it is seen from the table.
pub fn read_at<R: Reader>(
    alloc: Global,
    reader: &R,
    key: &str,
    value: &Value,
) -> Result<R::Out, Stop>
    ensures ok { IfOk result (λ out. at key.now (R.gives reader.now (view value.now)) ≡ Ok out) }
    ensures err { IfErr result (λ stop. Refuses stop (at key.now (R.gives reader.now (view value.now)))) }
    ensures path { IfErr result HasPath }
{
    match reader.read(alloc, value) {
        Ok(out) => Ok(out),
        Err(stop) => Err(stop_at(alloc, key, stop)),
    }
}

/// The stop as it is seen from the table that has the value at that key, or want of memory for its path.
pub fn stop_at(alloc: Global, key: &str, stop: Stop) -> Stop
    ensures raised { IsRaised key.now stop result }
    ensures path { HasPath result }
{
    match stop {
        Stop::Memory => Stop::Memory,
        Stop::Refused(refusal) => match raised(alloc, key, refusal) {
            Ok(above) => Stop::Refused(above),
            Err(_) => Stop::Memory,
        },
    }
}

/// What stands at a key that may be absent.
pub fn opt<R: Reader>(
    alloc: Global,
    reader: &R,
    table: &Table,
    key: &str,
) -> Result<Option<R::Out>, Stop>
    ensures ok { IfOk result (λ out. opt (R.gives reader.now) key.now (table_view table.now) ≡ Ok out) }
    ensures err { IfErr result (λ stop. Refuses stop (opt (R.gives reader.now) key.now (table_view table.now))) }
    ensures path { IfErr result HasPath }
{
    match member(table, key) {
        None => Ok(None),
        Some(value) => match read_at(alloc, reader, key, value) {
            Ok(out) => Ok(Some(out)),
            Err(stop) => Err(stop),
        },
    }
}

/// What stands at a needed key, which is refused in its place where it is absent.
pub fn need<R: Reader>(alloc: Global, reader: &R, table: &Table, key: &str) -> Result<R::Out, Stop>
    ensures ok { IfOk result (λ out. need (R.gives reader.now) key.now (table_view table.now) ≡ Ok out) }
    ensures err { IfErr result (λ stop. Refuses stop (need (R.gives reader.now) key.now (table_view table.now))) }
    ensures path { IfErr result HasPath }
{
    match member(table, key) {
        None => Err(stop_at(alloc, key, other_shape())),
        Some(value) => read_at(alloc, reader, key, value),
    }
}
