//! Why a table is refused, and at which of its keys.
ghost use Rattle.std.specs.Prelude.{◌≡◌, ◌++◌, ◌∷◌, IfOk};
ghost use Rattle.toml_view.specs.Reading.{under};

use pkg_world::Text;
use std::alloc::{AllocError, Global};

/// What is wrong with a value.
#[derive(Clone, Copy, Debug, PartialEq, Eq)]
pub enum Flaw {
    /// It has another kind, or it is needed and absent.
    Shape,
    /// It is no version text: the length of its longest front that begins one.
    Version(u64),
    /// It is no specifier or no range: the length of its longest front that begins one.
    Spec(u64),
}

/// A value that is refused: what is wrong, and where. The path is the keys joined by dots, from the value that was
/// read on, and None for that value itself. The places in lists aren't part of it.
#[derive(Debug, Drop)]
pub struct Refusal {
    pub path: Option<Text>,
    pub flaw: Flaw,
}

/// Why a reading stops.
#[derive(Debug, Drop)]
pub enum Stop {
    /// A value is refused.
    Refused(Refusal),
    /// There was no memory.
    Memory,
}

impl From<AllocError> for Stop {
    ghost use Rattle.toml_view.specs.declared.refusal.Stop.TheVariants.{Memory};

    ghost from_gives = { λ _ stop. stop ≡ Memory };

    fn from(_none: AllocError) -> Stop {
        Stop::Memory
    }
}

/// The refusal as it is seen from the table that has the value at that key.
pub(crate) fn raised(alloc: Global, key: &str, refusal: Refusal) -> Result<Refusal, AllocError>
    ensures { IfOk result (λ above. above ≡ under key.now refusal) }
{
    let Refusal { path, flaw } = refusal;
    let above = match path {
        None => Text::of(alloc, key)?,
        Some(rest) => dotted(alloc, key, rest.as_str())?,
    };
    Ok(Refusal {
        path: Some(above),
        flaw,
    })
}

fn dotted(alloc: Global, key: &str, rest: &str) -> Result<Text, AllocError>
    ensures { IfOk result (λ path. path ≡ key.now ++ 46 ∷ rest.now) }
{
    let mut path = String::from_str(alloc, key)?;
    path.push('.')?;
    path.push_str(rest)?;
    Text::of(alloc, path.as_str())
}
