// What the lines of the cases act on, one after another.
use crate::lattice::{model_text, sizes};
use crate::loads::{loaded, put_loaded};
use crate::shown::{put_categories, put_changed, put_counts, put_pairs, put_readings};
use mesh_base::rules::Project;
use mesh_base::{Node, Own};
use mesh_base_values::Str;
use mesh_cases::{Pen, Trouble, filled, front_word, number_of};
use mesh_category::category::categorize;
use mesh_io::{DirFolder, File, MemFolder};
use mesh_lineage::{joinable, reads, unsteady};
use mesh_list::{Duplicate, Memory, Seq};
use std::alloc::Global;
use std::mem::replace;

/// The files of a project, how many models are numbered, the project once it was loaded, and the one before it.
#[derive(Drop)]
pub struct Stage {
    folder: MemFolder,
    models: i64,
    made: Option<Project>,
    base: Option<Project>,
}

fn is(word: &[u8], other: &[u8]) -> bool {
    word == other
}

fn empty_folder(alloc: Global) -> MemFolder {
    MemFolder::new(Seq::new(alloc), Seq::new(alloc))
}

/// The file of a model by its number.
fn path_of(alloc: Global, number: i64) -> Result<Str, Trouble> {
    let path = format!(in alloc; "models/m{number:06}.sql")?;
    Ok(u8::copy_items(alloc, path.as_bytes())?)
}

/// A copy of a project, where it loads.
fn copied(loaded: Result<Project, Trouble>) -> Result<Project, Trouble> {
    match loaded {
        Ok(project) => Ok(project.copy()?),
        Err(trouble) => Err(trouble),
    }
}

fn put_unsteady(pen: &mut Pen, project: &Project) -> Result<(), Trouble> {
    let pairs = unsteady(project)?;
    put_pairs(pen, pairs.as_slice());
    Ok(())
}

fn put_reads(pen: &mut Pen, own: &Own) -> Result<(), Trouble> {
    let readings = reads(own)?;
    put_readings(pen, readings.as_slice());
    Ok(())
}

/// Adds how many columns all models read.
fn put_read(pen: &mut Pen, nodes: &[Node]) -> Result<(), Trouble> {
    let mut count = 0u64;
    for node in nodes {
        count = count.saturating_add(reads(&node.own)?.len() as u64);
    }
    pen.put(b" ");
    pen.count(count);
    Ok(())
}

/// Whether a model's name of two parts is so written.
fn is_named(own: &Own, text: &[u8]) -> bool {
    let schema = own.name.schema.as_slice();
    match text.strip_prefix(schema) {
        Some(rest) => rest.strip_prefix(b".") == Some(own.name.model.as_slice()),
        None => false,
    }
}

/// The model of that name.
fn model<'a>(project: &'a Project, text: &[u8]) -> Result<&'a Node, Trouble> {
    for node in project.as_slice() {
        if is_named(&node.own, text) {
            return Ok(node);
        }
    }
    Err(Trouble::Case)
}

fn put_joinable(pen: &mut Pen, own: &Own) -> Result<(), Trouble> {
    pen.put(if joinable(own)? { b" yes" } else { b" no" });
    Ok(())
}

/// How often a line asks: once where it doesn't say.
fn times_of(text: &[u8]) -> Result<i64, Trouble> {
    if text.is_empty() {
        Ok(1)
    } else {
        number_of(text)
    }
}

/// The folder that a line names: the folder itself where it names none.
fn dir_of(text: &[u8]) -> &[u8] {
    if text.is_empty() { b"." } else { text }
}

/// What stands behind the bar of a line.
fn behind_bar(text: &[u8]) -> Result<&[u8], Trouble> {
    text.strip_prefix(b"| ").ok_or(Trouble::Case)
}

impl Stage {
    pub fn new(alloc: Global) -> Stage {
        Stage {
            folder: empty_folder(alloc),
            models: 0,
            made: None,
            base: None,
        }
    }

    fn write(&mut self, path: Str, bytes: Str) -> Result<(), Memory> {
        self.made = None;
        self.folder.write(File { path, bytes })
    }

    fn add(&mut self, alloc: Global, text: &[u8]) -> Result<(), Trouble> {
        let path = path_of(alloc, self.models)?;
        let bytes = u8::copy_items(alloc, text)?;
        self.models = self.models.saturating_add(1);
        Ok(self.write(path, bytes)?)
    }

    fn add_file(&mut self, alloc: Global, text: &[u8]) -> Result<(), Trouble> {
        let (path, rest) = front_word(text);
        let bytes = u8::copy_items(alloc, behind_bar(rest)?)?;
        let path = u8::copy_items(alloc, path)?;
        Ok(self.write(path, bytes)?)
    }

    fn add_sources(&mut self, alloc: Global, text: &[u8]) -> Result<(), Trouble> {
        let path = u8::copy_items(alloc, b"external_models.csv")?;
        let bytes = u8::copy_items(alloc, text)?;
        Ok(self.write(path, bytes)?)
    }

    fn take_out(&mut self, alloc: Global, path: &[u8]) -> Result<(), Trouble> {
        let path = u8::copy_items(alloc, path)?;
        self.made = None;
        self.folder.delete(&path);
        Ok(())
    }

    /// Adds a model whose file was written.
    fn add_made(&mut self, alloc: Global, text: &Pen) -> Result<(), Trouble> {
        text.done()?;
        self.add(alloc, text.text())
    }

    fn add_rank(
        &mut self,
        alloc: Global,
        width: i64,
        rank: i64,
        is_wider: bool,
    ) -> Result<(), Trouble> {
        for place in 0..width {
            self.add_made(alloc, &model_text(alloc, width, rank, place, is_wider))?;
        }
        Ok(())
    }

    fn add_lattice(&mut self, alloc: Global, text: &[u8], is_wider: bool) -> Result<(), Trouble> {
        let (width, height) = sizes(text)?;
        for rank in 0..height {
            self.add_rank(alloc, width, rank, is_wider)?;
        }
        Ok(())
    }

    /// The project, which is loaded where it wasn't yet.
    fn project(&mut self, alloc: Global) -> Result<Project, Trouble> {
        match self.made.take() {
            Some(project) => Ok(project),
            None => loaded(alloc, &mut self.folder),
        }
    }

    /// Takes out the numbered models.
    fn take_models(&mut self, alloc: Global) -> Result<(), Trouble> {
        for number in 0..self.models {
            let path = path_of(alloc, number)?;
            self.folder.delete(&path);
        }
        self.models = 0;
        Ok(())
    }

    /// Begins a project that is compared with this one. Its numbered models are gone, other files stay.
    fn begin(&mut self, alloc: Global) -> Result<(), Trouble> {
        let base = copied(self.project(alloc))?;
        drop(replace(&mut self.base, Some(base)));
        self.take_models(alloc)
    }

    fn begin_empty(&mut self, alloc: Global) {
        drop(replace(self, Stage::new(alloc)));
    }

    fn put_categories(&self, pen: &mut Pen, project: &Project) -> Result<(), Trouble> {
        let found = categorize(project, self.base.as_ref())?;
        put_categories(pen, project.as_slice(), &found);
        Ok(())
    }

    fn put_counts(&self, pen: &mut Pen, project: &Project) -> Result<(), Trouble> {
        let found = categorize(project, self.base.as_ref())?;
        put_counts(pen, &found);
        Ok(())
    }

    fn put_often(
        &self,
        word: &[u8],
        times: i64,
        project: &Project,
        pen: &mut Pen,
    ) -> Result<(), Trouble> {
        for _ in 0..times {
            self.put(word, project, pen)?;
        }
        Ok(())
    }

    fn put(&self, word: &[u8], project: &Project, pen: &mut Pen) -> Result<(), Trouble> {
        if is(word, b"unsteady") {
            put_unsteady(pen, project)
        } else if is(word, b"categories") {
            self.put_categories(pen, project)
        } else if is(word, b"readings") {
            put_read(pen, project.as_slice())
        } else if is(word, b"count") {
            self.put_counts(pen, project)
        } else if is(word, b"changed") {
            put_changed(pen, project.as_slice(), self.base.as_ref());
            Ok(())
        } else {
            Err(Trouble::Case)
        }
    }

    /// Takes what a line adds. Whether it is such a line.
    fn takes(&mut self, alloc: Global, word: &[u8], text: &[u8]) -> Result<bool, Trouble> {
        if is(word, b"sources") {
            self.add_sources(alloc, behind_bar(text)?)?;
        } else if is(word, b"model") {
            self.add(alloc, behind_bar(text)?)?;
        } else if is(word, b"file") {
            self.add_file(alloc, text)?;
        } else if is(word, b"gone") {
            self.take_out(alloc, text)?;
        } else if is(word, b"lattice") {
            self.add_lattice(alloc, text, false)?;
        } else if is(word, b"wider") {
            self.add_lattice(alloc, text, true)?;
        } else if is(word, b"project") {
            self.begin(alloc)?;
        } else if is(word, b"empty") {
            self.begin_empty(alloc);
        } else {
            return Ok(false);
        }
        Ok(true)
    }

    /// Adds what a line asks of one model, or of the project.
    fn answer(
        &self,
        word: &[u8],
        text: &[u8],
        project: &Project,
        pen: &mut Pen,
    ) -> Result<(), Trouble> {
        if is(word, b"reads") {
            put_reads(pen, &model(project, text)?.own)
        } else if is(word, b"joinable") {
            put_joinable(pen, &model(project, text)?.own)
        } else {
            self.put_often(word, times_of(text)?, project, pen)
        }
    }

    /// Asks something of the project, which stays.
    fn asked(
        &mut self,
        alloc: Global,
        word: &[u8],
        text: &[u8],
        pen: &mut Pen,
    ) -> Result<(), Trouble> {
        let project = self.project(alloc)?;
        let done = self.answer(word, text, &project, pen);
        drop(replace(&mut self.made, Some(project)));
        done
    }

    /// Adds what loading a project gives, that of these files or one of the data.
    fn says(
        &mut self,
        alloc: Global,
        data: &mut DirFolder,
        word: &[u8],
        text: &[u8],
        pen: &mut Pen,
    ) -> Result<(), Trouble> {
        if is(word, b"load") {
            put_loaded(alloc, &mut self.folder, dir_of(text), pen)
        } else if is(word, b"read") {
            put_loaded(alloc, data, dir_of(text), pen)
        } else {
            self.asked(alloc, word, text, pen)
        }
    }

    /// Runs a line, and adds what it asks.
    pub fn line(
        &mut self,
        alloc: Global,
        data: &mut DirFolder,
        line: &[u8],
        pen: &mut Pen,
    ) -> Result<(), Trouble> {
        let (word, rest) = front_word(line);
        let text = filled(alloc, rest)?;
        if self.takes(alloc, word, text.as_slice())? {
            return Ok(());
        }
        pen.put(line);
        self.says(alloc, data, word, text.as_slice(), pen)?;
        pen.put(b"\n");
        Ok(())
    }
}
