// What the commands of an example run on: everything is in memory.
use crate::report::Outcome;
use crate::trouble::Trouble;
use mesh_base_values::{LAST_MOMENT, Str};
use mesh_cli::cli::mesh_over_a_map;
use mesh_house::{Fail, Fails, MemHouse, Warehouse, World};
use mesh_io::{File, Folder, MemClock, MemFolder, MemSink, MemSource, Numbers};
use mesh_keep::MapKeeper;
use mesh_keep_house::kept::KeptHouse;
use mesh_list::{Duplicate, Memory, Seq, both, together};
use std::alloc::Global;
use std::mem::replace;
use std::thread::Threads;

/// The bytes of the largest file of an example.
const MOST_BYTES: u64 = 1 << 23;

/// A call that is to fail: a change of the warehouse before or after its effect, another call of the warehouse, or
/// one of another object.
#[derive(Clone, Copy, PartialEq, Eq)]
pub enum Call {
    Before,
    After,
    House,
    Folder,
    Clock,
    Input,
    Out,
    Err,
}

/// The files of the example, those of the project, the warehouse, the moment of the clock, the input, the books of
/// the suite `house`, and the call that is to fail, with its number in a command.
#[derive(Drop)]
pub struct Stage {
    pub alloc: Global,
    files: MemFolder,
    pub folder: MemFolder,
    pub house: MemHouse,
    pub moment: i64,
    pub input: Str,
    pub books: Str,
    pub failing: Option<(Call, u64)>,
}

/// The clock, the input and the sinks of one command.
#[derive(Drop)]
struct Streams {
    clock: MemClock,
    input: MemSource,
    out: MemSink,
    err: MemSink,
}

impl Stage {
    pub fn new(alloc: Global) -> Stage {
        Stage {
            alloc,
            files: MemFolder::new(Seq::new(alloc), Seq::new(alloc)),
            folder: MemFolder::new(Seq::new(alloc), Seq::new(alloc)),
            house: MemHouse::new(alloc),
            moment: 0,
            input: Seq::new(alloc),
            books: Seq::new(alloc),
            failing: None,
        }
    }

    /// Adds a file of the example; those below `project` are the project's, too.
    pub fn add(&mut self, path: &[u8], bytes: Str) -> Result<(), Trouble> {
        if let Some(rest) = path.strip_prefix(b"project/") {
            self.write(u8::copy_items(self.alloc, rest)?, bytes.copy()?)?;
        }
        let path = u8::copy_items(self.alloc, path)?;
        Ok(self.files.write(File { path, bytes })?)
    }

    /// Gives the project a file.
    pub fn write(&mut self, path: Str, bytes: Str) -> Result<(), Trouble> {
        Ok(self.folder.write(File { path, bytes })?)
    }

    /// The bytes of a file of the example.
    pub fn file(&mut self, path: &Str) -> Result<Str, Trouble> {
        let found = self.files.read(self.alloc, path, MOST_BYTES)?;
        found.ok_or(Trouble::Script)
    }

    /// The warehouse has this world.
    pub fn restore(&mut self, world: World) {
        let house = MemHouse::with(world, Seq::new(self.alloc));
        drop(replace(&mut self.house, house));
    }

    /// The warehouse has a copy of this world.
    pub fn restore_copy(&mut self, world: &World) -> Result<(), Trouble> {
        self.restore(world.copy()?);
        Ok(())
    }

    /// The warehouse is empty.
    pub fn empty(&mut self) {
        drop(replace(&mut self.house, MemHouse::new(self.alloc)));
    }

    fn numbers(&self, call: Call) -> Result<Numbers, Memory> {
        let mut numbers = Seq::new(self.alloc);
        if let Some((failing, number)) = self.failing {
            if failing == call {
                numbers.push(number)?;
            }
        }
        Ok(numbers)
    }

    fn house_fails(&self) -> Result<Fails, Memory> {
        let mut fails = Seq::new(self.alloc);
        if let Some((failing, call)) = self.failing {
            if failing == Call::Before || failing == Call::After || failing == Call::House {
                fails.push(Fail {
                    change: failing != Call::House,
                    call,
                    after: failing == Call::After,
                })?;
            }
        }
        Ok(fails)
    }

    fn clock(&self) -> Result<MemClock, Trouble> {
        let moment = self.moment;
        if moment < 0 || LAST_MOMENT < moment {
            return Err(Trouble::Script);
        }
        Ok(MemClock::new(moment, self.numbers(Call::Clock)?))
    }

    fn sink(&self, call: Call) -> Result<MemSink, Memory> {
        Ok(MemSink::new(self.alloc, self.numbers(call)?))
    }

    fn source(&self) -> Result<MemSource, Memory> {
        let (input, fails) = together(self.input.copy(), self.numbers(Call::Input))?;
        Ok(MemSource::new(input, fails))
    }

    fn streams(&self) -> Result<Streams, Trouble> {
        let clock = self.clock()?;
        let (input, (out, err)) = together(
            self.source(),
            together(self.sink(Call::Out), self.sink(Call::Err)),
        )?;
        Ok(Streams {
            clock,
            input,
            out,
            err,
        })
    }

    /// The calls of the warehouse and of the folder are numbered from 0 on.
    fn begin(&mut self) -> Result<(), Memory> {
        let (house, folder) = together(self.house_fails(), self.numbers(Call::Folder))?;
        self.house.set_fails(house);
        self.folder.set_fails(folder);
        Ok(())
    }

    /// Runs one command, whose calls are numbered from 0.
    pub fn run<R: Threads + Sync>(&mut self, rt: &R, words: &[Str]) -> Result<Outcome, Trouble> {
        self.begin()?;
        let over = self.streams()?;
        run_over(
            rt,
            self.alloc,
            words,
            &mut self.folder,
            &mut self.house,
            over,
        )
    }

    /// Runs one command over another warehouse.
    pub fn run_beside<R: Threads + Sync, W: Warehouse>(
        &mut self,
        rt: &R,
        words: &[Str],
        house: &mut W,
    ) -> Result<Outcome, Trouble> {
        let over = self.streams()?;
        run_over(rt, self.alloc, words, &mut self.folder, house, over)
    }

    /// Runs one command over records in a map.
    pub fn run_mapped<R: Threads + Sync>(
        &mut self,
        rt: &R,
        words: &[Str],
        house: &mut KeptHouse<MapKeeper>,
    ) -> Result<Outcome, Trouble> {
        let mut over = self.streams()?;
        let before = house.calls();
        let status = mesh_over_a_map(
            rt,
            self.alloc,
            words,
            &mut self.folder,
            house,
            &mut over.clock,
            &mut over.input,
            &mut over.out,
            &mut over.err,
        );
        outcome(status, house.calls().saturating_sub(before), &over)
    }
}

/// What comes of a command over a warehouse.
fn run_over<R: Threads + Sync, W: Warehouse>(
    rt: &R,
    alloc: Global,
    words: &[Str],
    folder: &mut MemFolder,
    house: &mut W,
    over: Streams,
) -> Result<Outcome, Trouble> {
    let mut over = over;
    let before = house.calls();
    let status = mesh_cli::cli::mesh(
        rt,
        alloc,
        words,
        folder,
        house,
        &mut over.clock,
        &mut over.input,
        &mut over.out,
        &mut over.err,
    );
    outcome(status, house.calls().saturating_sub(before), &over)
}

/// What came of a command that made so many changes.
fn outcome(status: u8, changes: u64, over: &Streams) -> Result<Outcome, Trouble> {
    let (out, err) = both(over.out.bytes(), over.err.bytes())?;
    Ok(Outcome {
        status,
        changes,
        out,
        err,
    })
}
