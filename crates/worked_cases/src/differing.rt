//! What differs between the answer of a step and the wanted one, a line for each.
ghost use Rattle.std.specs.Prelude.{◌≡◌, ◌≤◌, ◌+◌, ◌==◌, ◌||◌, IfOk, OnOk, vec_len};
ghost use Rattle.std.specs.Str.{bytes_eq};
ghost use Rattle.worked_cases.specs.Differing as spec;
ghost use Rattle.worked_cases.specs.Differing.{line_count, one_unless, failing};

use crate::case::{Files, Wanted};
use std::alloc::{AllocError, Global};
use std::str;

/// What a step gave.
#[derive(Drop)]
pub struct Answer {
    pub status: u8,
    pub told: &'static str,
    pub out: Vec<u8>,
    pub err: Vec<u8>,
    /// All files after the step.
    pub files: Files,
}

/// The lines of what differs; none where all is as wanted.
pub fn differences(
    alloc: Global,
    before: &Files,
    wanted: &Wanted,
    answer: &Answer,
) -> Result<Vec<String>, AllocError>
    ensures { IfOk result (λ lines. spec.answer_count wanted.now answer.now + spec.file_count before.now wanted.now.changed answer.now.files ≤ vec_len lines) }
{
    let mut found = Findings::none(alloc);
    found.answer(wanted, answer)?;
    found.files(before, &wanted.changed, &answer.files)?;
    Ok(found.into_lines())
}

/// Lines of what differs. Each comparison adds one line where it fails, and none where it holds.
#[derive(Drop)]
pub struct Findings {
    alloc: Global,
    lines: Vec<String>,
}

impl Findings {
    /// No lines yet.
    pub fn none(alloc: Global) -> Findings
        ensures { line_count result ≡ 0 }
    {
        Findings {
            alloc,
            lines: Vec::new(alloc),
        }
    }

    /// The lines, in the order in which they were added.
    pub fn into_lines(self) -> Vec<String>
        ensures { vec_len result ≡ line_count self }
    {
        let Findings { lines, .. } = self;
        lines
    }

    /// Adds a line.
    pub fn add(&mut self, line: String) -> Result<(), AllocError>
        ensures { OnOk result (line_count self.new ≡ line_count self.old + 1) }
    {
        self.lines.push(line)?;
        Ok(())
    }

    /// Compares all but the files.
    fn answer(&mut self, wanted: &Wanted, answer: &Answer) -> Result<(), AllocError>
        ensures { OnOk result (line_count self.new ≡ line_count self.old + spec.answer_count wanted.now answer.now) }
    {
        self.code(wanted.status, answer.status)?;
        self.told(wanted.told.as_str(), answer.told)?;
        self.text("out", wanted.out.as_bytes(), answer.out.as_slice())?;
        self.text("err", wanted.err.as_bytes(), answer.err.as_slice())
    }

    fn code(&mut self, want: u8, status: u8) -> Result<(), AllocError>
        ensures { OnOk result (line_count self.new ≡ line_count self.old + one_unless (want == status)) }
    {
        if want == status {
            return Ok(());
        }
        self.add(format!(in self.alloc; "status: want {want}, got {status}")?)
    }

    fn told(&mut self, want: &str, told: &str) -> Result<(), AllocError>
        ensures { OnOk result (line_count self.new ≡ line_count self.old + one_unless (bytes_eq want.now told.now)) }
    {
        if want == told {
            return Ok(());
        }
        self.add(format!(in self.alloc; "told: want {want}, got {told}")?)
    }

    /// Tells the first line in which two texts differ.
    fn text(&mut self, what: &str, want: &[u8], got: &[u8]) -> Result<(), AllocError>
        ensures { OnOk result (line_count self.new ≡ line_count self.old + one_unless (bytes_eq want.now got.now)) }
    {
        if want == got {
            return Ok(());
        }
        self.add(first_difference(self.alloc, what, want, got)?)
    }

    /// Compares the files after a step with those before it and the changed ones on top.
    pub fn files(
        &mut self,
        before: &Files,
        changed: &Files,
        after: &Files,
    ) -> Result<(), AllocError>
        ensures { OnOk result (line_count self.old + spec.file_count before.now changed.now after.now ≤ line_count self.new) }
    {
        self.changed_files(changed, after)?;
        self.kept_files(before, changed, after)?;
        self.new_files(before, changed, after)
    }

    /// Tells the changed files that are not as wanted.
    fn changed_files(&mut self, changed: &Files, after: &Files) -> Result<(), AllocError>
        ensures { OnOk result (line_count self.old + failing (spec.is_made after.now) changed.now.entries ≤ line_count self.new) }
    {
        'files: for (path, want) in changed.iter() {
            self.changed_file(path, want, after)?;
        }
        Ok(())
    }

    fn changed_file(
        &mut self,
        path: &String,
        want: &Vec<u8>,
        after: &Files,
    ) -> Result<(), AllocError>
        ensures { OnOk result (line_count self.old + one_unless (spec.is_made after.now (path.now, want.now)) ≤ line_count self.new) }
    {
        match after.get(path.as_str()) {
            Some(got) => self.made(path.as_str(), want.as_slice(), got.as_slice()),
            None => self.add(format!(in self.alloc; "changed {path}: is not there")?),
        }
    }

    /// Tells a changed file that is not as wanted: a file of TOML goes by its table, any other by its bytes.
    fn made(&mut self, path: &str, want: &[u8], got: &[u8]) -> Result<(), AllocError>
        ensures { OnOk result (line_count self.old + one_unless (spec.is_toml path.now || bytes_eq want.now got.now) ≤ line_count self.new) }
    {
        if is_toml(path) {
            self.table(path, want, got)
        } else {
            self.bytes(path, want, got)
        }
    }

    /// Tells where two texts differ that are not both TOML with one table.
    fn table(&mut self, path: &str, want: &[u8], got: &[u8]) -> Result<(), AllocError>
        ensures { OnOk result (line_count self.old ≤ line_count self.new) }
    {
        if is_same_table(self.alloc, want, got) {
            return Ok(());
        }
        self.bytes(path, want, got)
    }

    /// Tells the files that were there and were to stay as they were.
    fn kept_files(
        &mut self,
        before: &Files,
        changed: &Files,
        after: &Files,
    ) -> Result<(), AllocError>
        ensures { OnOk result (line_count self.new ≡ line_count self.old + failing (spec.is_kept changed.now after.now) before.now.entries) }
    {
        'files: for (path, want) in before.iter() {
            self.kept_file(path, want, changed, after)?;
        }
        Ok(())
    }

    fn kept_file(
        &mut self,
        path: &String,
        want: &Vec<u8>,
        changed: &Files,
        after: &Files,
    ) -> Result<(), AllocError>
        ensures { OnOk result (line_count self.new ≡ line_count self.old + one_unless (spec.is_kept changed.now after.now (path.now, want.now))) }
    {
        if changed.contains_key(path.as_str()) {
            return Ok(());
        }
        match after.get(path.as_str()) {
            Some(got) => self.bytes(path.as_str(), want.as_slice(), got.as_slice()),
            None => self.add(format!(in self.alloc; "changed {path}: is gone")?),
        }
    }

    /// Tells the files that were neither there nor wanted.
    fn new_files(
        &mut self,
        before: &Files,
        changed: &Files,
        after: &Files,
    ) -> Result<(), AllocError>
        ensures { OnOk result (line_count self.new ≡ line_count self.old + failing (spec.is_known before.now changed.now) after.now.entries) }
    {
        'files: for (path, got) in after.iter() {
            self.new_file(path, got, before, changed)?;
        }
        Ok(())
    }

    fn new_file(
        &mut self,
        path: &String,
        _got: &Vec<u8>,
        before: &Files,
        changed: &Files,
    ) -> Result<(), AllocError>
        ensures { OnOk result (line_count self.new ≡ line_count self.old + one_unless (spec.is_known before.now changed.now (path.now, _got.now))) }
    {
        if before.contains_key(path.as_str()) || changed.contains_key(path.as_str()) {
            return Ok(());
        }
        self.add(format!(in self.alloc; "changed {path}: was not to be there")?)
    }

    fn bytes(&mut self, path: &str, want: &[u8], got: &[u8]) -> Result<(), AllocError>
        ensures { OnOk result (line_count self.new ≡ line_count self.old + one_unless (bytes_eq want.now got.now)) }
    {
        let what = format!(in self.alloc; "changed {path}")?;
        self.text(what.as_str(), want, got)
    }
}

/// The line on the first place in which two texts differ.
fn first_difference(
    alloc: Global,
    what: &str,
    want: &[u8],
    got: &[u8],
) -> Result<String, AllocError> {
    let wants = lines_of(alloc, want)?;
    let gots = lines_of(alloc, got)?;
    let place = first_place(&wants, &gots);
    line_text(
        alloc,
        what,
        place,
        line_at(&wants, place),
        line_at(&gots, place),
    )
}

/// The first place in which lines differ; past the last one where none do.
fn first_place(wants: &Vec<&[u8]>, gots: &Vec<&[u8]>) -> usize {
    let count = wants.len().max(gots.len());
    for place in 0..count {
        if line_at(wants, place) != line_at(gots, place) {
            return place;
        }
    }
    count
}

/// The lines of a text, each with its newline.
fn lines_of(alloc: Global, text: &[u8]) -> Result<Vec<&[u8]>, AllocError> {
    let mut lines = Vec::new(alloc);
    for line in text.split_inclusive(|byte| *byte == b'\n') {
        lines.push(line)?;
    }
    Ok(lines)
}

/// The line at a place, empty past the last one.
fn line_at<'a>(lines: &Vec<&'a [u8]>, place: usize) -> &'a [u8] {
    match lines.get(place) {
        Some(line) => *line,
        None => b"",
    }
}

fn line_text(
    alloc: Global,
    what: &str,
    place: usize,
    want: &[u8],
    got: &[u8],
) -> Result<String, AllocError> {
    let number = place.saturating_add(1);
    let want = str::from_utf8(want).unwrap_or("no text");
    let got = str::from_utf8(got).unwrap_or("no text");
    format!(in alloc; "{what} line {number}: want {want:?}, got {got:?}")
}

fn is_toml(path: &str) -> bool
    ensures { result ≡ spec.is_toml path.now }
{
    path.as_bytes().ends_with(b".toml")
}

/// Whether both texts are TOML and have one table.
fn is_same_table(alloc: Global, want: &[u8], got: &[u8]) -> bool {
    let Ok(want) = toml::de::table_from_slice(alloc, want) else {
        return false;
    };
    let Ok(got) = toml::de::table_from_slice(alloc, got) else {
        return false;
    };
    want == got
}
