//! What the machine tells a command: its words and its place.
use pkg_top::{PlaceFault, place_from};
use pkg_world::{Place, Text};
use std::alloc::{AllocError, Global};
use std::env::VarError;
use std::rt::Env;
use std::{env, io};

/// The words of a command and its place.
#[derive(Drop)]
pub struct Surroundings {
    /// The words after the program's name.
    pub words: Vec<String>,
    pub place: Place,
}

/// Why the machine gives no words or no place.
#[derive(Drop)]
pub enum Refusal {
    /// This text of the environment is no path, or no version of Julia.
    BadPlace(Text),
    /// A word or a variable is not UTF-8.
    NotText,
    /// The current folder can't be told.
    NoFolder,
    Memory,
}

impl From<AllocError> for Refusal {
    fn from(_none: AllocError) -> Refusal {
        Refusal::Memory
    }
}

/// The words of the command, and the place that its environment gives: `JULIA_DEPOT_PATH` or `HOME`, `JULIA_LOAD_PATH`,
/// `JULIA_PROJECT`, `JLPKG_STDLIB` and `JLPKG_JULIA`.
pub fn read_surroundings<R: Env + AllocGlobal>(rt: &R) -> Result<Surroundings, Refusal> {
    let words = words(rt)?;
    let cwd = current_folder(rt)?;
    let place = place(rt, cwd.as_str())?;
    Ok(Surroundings { words, place })
}

/// The words after the program's name.
fn words<R: Env + AllocGlobal>(rt: &R) -> Result<Vec<String>, Refusal> {
    let mut words = Vec::new(rt.alloc());
    match env::args(rt) {
        Ok(all) => {
            for (i, word) in all.enumerate() {
                if i > 0 {
                    words.push(word).map_err(AllocError::from)?;
                }
            }
            Ok(words)
        }
        Err(error) => match error.kind() {
            io::ErrorKind::OutOfMemory => Err(Refusal::Memory),
            _ => Err(Refusal::NotText),
        },
    }
}

fn current_folder<R: Env + AllocGlobal>(rt: &R) -> Result<String, Refusal> {
    match env::current_dir(rt) {
        Ok(folder) => Ok(String::from_str(rt.alloc(), folder.as_str())?),
        Err(error) => match error.kind() {
            io::ErrorKind::OutOfMemory => Err(Refusal::Memory),
            _ => Err(Refusal::NoFolder),
        },
    }
}

fn place<R: Env + AllocGlobal>(rt: &R, cwd: &str) -> Result<Place, Refusal> {
    let home = variable(rt, "HOME")?;
    let depots = variable(rt, "JULIA_DEPOT_PATH")?;
    let load_path = variable(rt, "JULIA_LOAD_PATH")?;
    let project = variable(rt, "JULIA_PROJECT")?;
    let stdlib = variable(rt, "JLPKG_STDLIB")?;
    let julia = variable(rt, "JLPKG_JULIA")?;
    match place_from(
        rt.alloc(),
        cwd,
        text_of(&home),
        text_of(&depots),
        text_of(&load_path),
        text_of(&project),
        text_of(&stdlib),
        text_of(&julia),
    ) {
        Ok(place) => Ok(place),
        Err(PlaceFault::BadPath(text)) => Err(Refusal::BadPlace(text)),
        Err(PlaceFault::BadJulia(_)) => Err(bad_julia(rt.alloc(), &julia)),
        Err(PlaceFault::Memory) => Err(Refusal::Memory),
    }
}

/// The refusal of Julia's text.
fn bad_julia(alloc: Global, julia: &Option<String>) -> Refusal {
    let text = text_of(julia).unwrap_or("-");
    match Text::of(alloc, text) {
        Ok(text) => Refusal::BadPlace(text),
        Err(_) => Refusal::Memory,
    }
}

fn text_of(text: &Option<String>) -> Option<&str> {
    match text {
        Some(text) => Some(text.as_str()),
        None => None,
    }
}

fn variable<R: Env + AllocGlobal>(rt: &R, name: &str) -> Result<Option<String>, Refusal> {
    match env::var(rt, name) {
        Ok(text) => Ok(Some(text)),
        Err(VarError::NotPresent) => Ok(None),
        Err(VarError::NotUnicode) => Err(Refusal::NotText),
        Err(VarError::OutOfMemory) => Err(Refusal::Memory),
    }
}

/// Tells why there is no command to run, and gives the exit code.
pub fn refuse(rt: &impl Eprint, refusal: &Refusal) -> u8 {
    match refusal {
        Refusal::BadPlace(text) => {
            let text = text.as_str();
            let _ = eprintln!(rt; "error 2 BadPlace {text}");
            2
        }
        Refusal::NotText => {
            let _ = eprintln!(rt; "error 2 BadPlace -");
            2
        }
        Refusal::NoFolder => {
            let _ = eprintln!(rt; "error 8 ReadFault .");
            8
        }
        Refusal::Memory => {
            let _ = eprintln!(rt; "error 15 Memory");
            15
        }
    }
}
