//! Reads a case from the bytes of its file.
use crate::case::{Case, Files, Step, Texts, Wanted, World};
use crate::faults::{families_in, faults_in};
use crate::keys::{
    Stop, malformed, need, need_code, need_text, only, opt_text_or, table_at, text_or, texts_at,
    texts_of, under,
};
use crate::paths::path_text;
use std::alloc::{AllocError, Global};
use std::collections::BTreeMap;
use toml::{Table, Value};

const CASE_KEYS: [&str; 5] = ["about", "place", "folders", "files", "steps"];

const PLACE_KEYS: [&str; 7] = [
    "cwd",
    "home",
    "depots",
    "load_path",
    "project",
    "stdlib",
    "julia",
];

const STEP_KEYS: [&str; 15] = [
    "run",
    "place",
    "files",
    "folders",
    "without",
    "status",
    "out",
    "err",
    "changed",
    "told",
    "fails",
    "put_fails",
    "err_fails",
    "each_fails",
    "cut",
];

/// The case that the bytes of a file spell, or the first key path that breaks the format.
pub fn read_case(alloc: Global, bytes: &[u8]) -> Result<Case, Stop> {
    match toml::de::table_from_slice(alloc, bytes) {
        Ok(table) => case_of(alloc, &table),
        Err(error) => {
            if error.is_memory() {
                Err(Stop::Memory)
            } else {
                Err(Stop::NoToml)
            }
        }
    }
}

fn case_of(alloc: Global, table: &Table) -> Result<Case, Stop> {
    only(alloc, table, CASE_KEYS.as_slice())?;
    let _ = need_text(alloc, table, "about")?;
    let texts = case_texts(alloc, table)?;
    let world = case_world(alloc, table)?;
    let steps = steps_at(alloc, table, &texts, &world)?;
    Ok(Case { steps })
}

/// The environment of a case. Without a table of its own the project is `/p` and the depot `/d`.
fn case_texts(alloc: Global, table: &Table) -> Result<Texts, Stop> {
    match table_at(alloc, table, "place")? {
        Some(place) => read_texts(alloc, &bare_texts(alloc)?, place),
        None => Ok(usual_texts(alloc)?),
    }
}

fn usual_texts(alloc: Global) -> Result<Texts, AllocError> {
    let mut texts = bare_texts(alloc)?;
    texts.depots = Some(String::from_str(alloc, "/d")?);
    texts.project = Some(String::from_str(alloc, "/p")?);
    Ok(texts)
}

fn bare_texts(alloc: Global) -> Result<Texts, AllocError> {
    Ok(Texts {
        cwd: String::from_str(alloc, "/p")?,
        home: None,
        depots: None,
        load_path: None,
        project: None,
        stdlib: None,
        julia: None,
    })
}

/// The texts of a table, and those of a base for the keys that it lacks.
fn read_texts(alloc: Global, base: &Texts, place: &Table) -> Result<Texts, Stop> {
    under(alloc, "place", texts_in(alloc, base, place))
}

fn texts_in(alloc: Global, base: &Texts, place: &Table) -> Result<Texts, Stop> {
    only(alloc, place, PLACE_KEYS.as_slice())?;
    Ok(Texts {
        cwd: text_or(alloc, place, "cwd", base.cwd.as_str())?,
        home: opt_text_or(alloc, place, "home", &base.home)?,
        depots: opt_text_or(alloc, place, "depots", &base.depots)?,
        load_path: opt_text_or(alloc, place, "load_path", &base.load_path)?,
        project: opt_text_or(alloc, place, "project", &base.project)?,
        stdlib: opt_text_or(alloc, place, "stdlib", &base.stdlib)?,
        julia: opt_text_or(alloc, place, "julia", &base.julia)?,
    })
}

fn case_world(alloc: Global, table: &Table) -> Result<World, Stop> {
    let mut world = World {
        folders: Vec::new(alloc),
        files: BTreeMap::new(alloc),
    };
    add_folders(alloc, table, &mut world.folders)?;
    add_files(alloc, table, "files", &mut world.files)?;
    Ok(world)
}

fn add_folders(alloc: Global, table: &Table, folders: &mut Vec<String>) -> Result<(), Stop> {
    for text in texts_at(alloc, table, "folders")? {
        folders.push(path_text(alloc, "folders", text.as_str())?)?;
    }
    Ok(())
}

/// Puts the files of the table at that key over those that are there.
fn add_files(alloc: Global, table: &Table, key: &str, files: &mut Files) -> Result<(), Stop> {
    match table_at(alloc, table, key)? {
        Some(inner) => under(alloc, key, add_each(alloc, inner, files)),
        None => Ok(()),
    }
}

fn add_each(alloc: Global, table: &Table, files: &mut Files) -> Result<(), Stop> {
    for path in table.keys() {
        let text = need_text(alloc, table, path.as_str())?;
        let path = path_text(alloc, path.as_str(), path.as_str())?;
        files.insert(path, text.into_bytes())?;
    }
    Ok(())
}

fn steps_at(alloc: Global, table: &Table, texts: &Texts, world: &World) -> Result<Vec<Step>, Stop> {
    match need(alloc, table, "steps")?.as_array() {
        Some(list) => steps_in(alloc, list, texts, world),
        None => Err(malformed(alloc, "steps", "is no list of tables")),
    }
}

fn steps_in(
    alloc: Global,
    list: &Vec<Value>,
    texts: &Texts,
    world: &World,
) -> Result<Vec<Step>, Stop> {
    let mut steps = Vec::new(alloc);
    for (place, value) in list.iter().enumerate() {
        let key = step_key(alloc, place)?;
        let step = step_of(alloc, value, texts, world);
        steps.push(under(alloc, key.as_str(), step)?)?;
    }
    if steps.is_empty() {
        return Err(malformed(alloc, "steps", "is empty"));
    }
    Ok(steps)
}

/// The key path of a step, which is counted from 1.
fn step_key(alloc: Global, place: usize) -> Result<String, AllocError> {
    let number = place.saturating_add(1);
    format!(in alloc; "steps.{number}")
}

fn step_of(alloc: Global, value: &Value, texts: &Texts, world: &World) -> Result<Step, Stop> {
    match value.as_table() {
        Some(table) => read_step(alloc, table, texts, world),
        None => Err(malformed(alloc, "run", "is missing")),
    }
}

fn read_step(alloc: Global, table: &Table, texts: &Texts, world: &World) -> Result<Step, Stop> {
    only(alloc, table, STEP_KEYS.as_slice())?;
    let world = step_world(alloc, table, world)?;
    let faults = faults_in(alloc, table)?;
    let families = families_in(alloc, table, &world.files)?;
    if !faults.is_empty() && !families.is_empty() {
        return Err(malformed(alloc, "fails", "stands beside a family"));
    }
    Ok(Step {
        words: words_at(alloc, table)?,
        texts: step_texts(alloc, table, texts)?,
        world,
        wanted: wanted_in(alloc, table)?,
        faults,
        families,
    })
}

/// The words of a step: a list, or a text that is split at each space; the empty text has none.
fn words_at(alloc: Global, table: &Table) -> Result<Vec<String>, Stop> {
    let value = need(alloc, table, "run")?;
    match value.as_str() {
        Some(text) => Ok(split_words(alloc, text)?),
        None => texts_of(alloc, "run", value),
    }
}

fn split_words(alloc: Global, text: &str) -> Result<Vec<String>, AllocError> {
    let mut words = Vec::new(alloc);
    if text.is_empty() {
        return Ok(words);
    }
    for word in text.split(' ') {
        words.push(String::from_str(alloc, word)?)?;
    }
    Ok(words)
}

fn step_texts(alloc: Global, table: &Table, base: &Texts) -> Result<Texts, Stop> {
    match table_at(alloc, table, "place")? {
        Some(place) => read_texts(alloc, base, place),
        None => read_texts(alloc, base, &BTreeMap::new(alloc)),
    }
}

/// The world of the case without some files, and with the step's own files and folders on top.
fn step_world(alloc: Global, table: &Table, base: &World) -> Result<World, Stop> {
    let mut world = base.copy(alloc)?;
    take_away(alloc, table, &mut world.files)?;
    add_folders(alloc, table, &mut world.folders)?;
    add_files(alloc, table, "files", &mut world.files)?;
    Ok(world)
}

fn take_away(alloc: Global, table: &Table, files: &mut Files) -> Result<(), Stop> {
    for text in texts_at(alloc, table, "without")? {
        let path = path_text(alloc, "without", text.as_str())?;
        if files.remove(path.as_str()).is_none() {
            return Err(malformed(alloc, "without", "names no file of the case"));
        }
    }
    Ok(())
}

fn wanted_in(alloc: Global, table: &Table) -> Result<Wanted, Stop> {
    let mut changed = BTreeMap::new(alloc);
    add_files(alloc, table, "changed", &mut changed)?;
    Ok(Wanted {
        status: need_code(alloc, table, "status")?,
        out: text_or(alloc, table, "out", "")?,
        err: text_or(alloc, table, "err", "")?,
        changed,
        told: told_at(alloc, table)?,
    })
}

/// How the error line fares.
fn told_at(alloc: Global, table: &Table) -> Result<String, Stop> {
    let told = text_or(alloc, table, "told", "Whole")?;
    match told.as_str() {
        "Whole" | "Failed" | "Memory" => Ok(told),
        _ => Err(malformed(alloc, "told", "is not Whole, Failed or Memory")),
    }
}
