//! What a command that writes is asked for.
ghost use Rattle.std.specs.Prelude.{◌≡◌, true, false, None};
ghost use Rattle.project_phases.specs.declared.developing.Wish.TheVariants.{Ready};
ghost use Rattle.project_phases.specs.Phases.{said_wish};
ghost use Rattle.edit_commands.specs.Orders as spec;

use crate::options::Options;
use jl_versions::Version;
use pkg_commands::{Command, WordList};
use pkg_world::{Name, Names, NormPath};
use project_phases::Wish;

/// What a command that writes is asked for. (Pkg, the commands of these names.)
#[derive(Drop)]
pub enum Order {
    /// The project stays as it is. The classes are told where they are asked for, and a file may be named that gets the
    /// certificate where no selection is feasible.
    Resolve {
        classes: bool,
        proof: Option<NormPath>,
    },
    /// These packages become dependencies.
    Add(WordList),
    /// These names are dependencies no longer.
    Remove(Names),
    /// The package of this name stays at a version, that of the manifest where none is given.
    Pin(Name, Option<Version>),
    /// The package of this name may change again.
    Free(Name),
    /// The package of this folder becomes a dependency, and is taken from there.
    Develop(NormPath),
}

/// An order as the phases of a command take it.
#[derive(Drop)]
pub(crate) struct Parts {
    /// Whether the project file need not be there.
    pub begun: bool,
    pub options: Options,
    pub wish: Wish,
}

/// The parts of an order.
pub(crate) fn parts_of(order: Order, budget: u32) -> Parts
    ensures begun { result.begun ≡ spec.begins (spec.said_order order) }
    ensures options { result.options ≡ spec.options_of (spec.said_order order) budget }
    ensures wish { said_wish result.wish ≡ spec.wish_of (spec.said_order order) }
{
    match order {
        Order::Resolve { classes, proof } => Parts {
            begun: false,
            options: Options {
                budget,
                rewrites: false,
                classes,
                proof,
            },
            wish: Wish::Ready(Command::Resolve),
        },
        Order::Add(words) => changing(true, budget, Wish::Ready(Command::Add(words))),
        Order::Remove(names) => changing(false, budget, Wish::Ready(Command::Rm(names))),
        Order::Pin(name, version) => keeping(budget, Command::Pin(name, version)),
        Order::Free(name) => keeping(budget, Command::Free(name)),
        Order::Develop(path) => changing(true, budget, Wish::Develop(path)),
    }
}

/// The parts of an order that changes the project.
fn changing(begun: bool, budget: u32, wish: Wish) -> Parts
    ensures begun { result.begun ≡ begun }
    ensures options { result.options ≡ spec.options_by budget true false None }
    ensures wish { result.wish ≡ wish }
{
    Parts {
        begun,
        options: options_of(budget, true),
        wish,
    }
}

/// The parts of an order that leaves the project as it is.
fn keeping(budget: u32, command: Command) -> Parts
    ensures begun { result.begun ≡ false }
    ensures options { result.options ≡ spec.options_by budget false false None }
    ensures wish { result.wish ≡ Ready command }
{
    Parts {
        begun: false,
        options: options_of(budget, false),
        wish: Wish::Ready(command),
    }
}

fn options_of(budget: u32, rewrites: bool) -> Options
    ensures { result ≡ spec.options_by budget rewrites false None }
{
    Options {
        budget,
        rewrites,
        classes: false,
        proof: None,
    }
}
