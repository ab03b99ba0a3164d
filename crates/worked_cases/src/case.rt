//! A case: steps over worlds of files in memory, each with the answer that it must get.
use pkg_world::{PutFail, StoreCall};
use std::alloc::{AllocError, Global};
use std::collections::BTreeMap;

/// The bytes of each file, by the text of its path from the root on.
pub type Files = BTreeMap<String, Vec<u8>>;

/// The steps of one case file, in order.
#[derive(Drop)]
pub struct Case {
    pub steps: Vec<Step>,
}

/// One run of a command over a world of its own.
#[derive(Drop)]
pub struct Step {
    /// The words after the program's name.
    pub words: Vec<String>,
    pub texts: Texts,
    pub world: World,
    pub wanted: Wanted,
    pub faults: Faults,
    pub families: Vec<Family>,
}

/// The texts of an environment, from which the place of a command is made.
#[derive(Drop)]
pub struct Texts {
    pub cwd: String,
    pub home: Option<String>,
    pub depots: Option<String>,
    pub load_path: Option<String>,
    pub project: Option<String>,
    pub stdlib: Option<String>,
    pub julia: Option<String>,
}

/// What a store holds before a step.
#[derive(Drop)]
pub struct World {
    /// The paths of folders that are there even without a file in them.
    pub folders: Vec<String>,
    pub files: Files,
}

/// What a step must give, to the byte.
#[derive(Drop)]
pub struct Wanted {
    /// The exit code.
    pub status: u8,
    /// The whole of standard output.
    pub out: String,
    /// The whole of standard error.
    pub err: String,
    /// The files that the step writes, with their bytes after it.
    pub changed: Files,
    /// How the error line fared: Whole, Failed or Memory.
    pub told: String,
}

/// The calls of the outside that fail in a step.
#[derive(Drop)]
pub struct Faults {
    /// The store's calls, by their methods and their numbers there, counted from 1.
    pub calls: Vec<(StoreCall, u64)>,
    /// The put of standard output.
    pub out: Option<PutFail>,
    /// The put of standard error.
    pub err: Option<PutFail>,
}

/// Many steps that differ from the one beside which they stand in one thing.
#[derive(Drop)]
pub enum Family {
    /// Call number n of the method fails in turn, and the n-th path is told; one number more fails no call.
    EachFails(StoreCall, Vec<String>),
    /// The file at that path is cut at every byte, and the exit code is one of these.
    Cut(String, Vec<u8>),
}

impl Faults {
    /// No call fails.
    pub fn none(alloc: Global) -> Faults {
        Faults {
            calls: Vec::new(alloc),
            out: None,
            err: None,
        }
    }

    /// Whether no call fails.
    pub fn is_empty(&self) -> bool {
        self.calls.is_empty() && self.out.is_none() && self.err.is_none()
    }
}

impl World {
    /// An equal world. The one error is want of memory.
    pub fn copy(&self, alloc: Global) -> Result<World, AllocError> {
        Ok(World {
            folders: copy_texts(alloc, &self.folders)?,
            files: copy_files(alloc, &self.files)?,
        })
    }
}

fn copy_texts(alloc: Global, texts: &Vec<String>) -> Result<Vec<String>, AllocError> {
    let mut made = Vec::new(alloc);
    for text in texts.iter() {
        made.push(text.clone()?)?;
    }
    Ok(made)
}

fn copy_files(alloc: Global, files: &Files) -> Result<Files, AllocError> {
    let mut made = BTreeMap::new(alloc);
    for (path, bytes) in files.iter() {
        let bytes = Vec::from_slice(alloc, bytes.as_slice())?;
        made.insert(path.clone()?, bytes)?;
    }
    Ok(made)
}
