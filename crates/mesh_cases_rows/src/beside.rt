// The commands of an example over two further warehouses: records in a map, and SQLite in memory.
use crate::arrange::number_of;
use crate::report::{Outcome, put, put_each, put_outcome};
use crate::stage::Stage;
use crate::trouble::Trouble;
use mesh_base_values::{Str, same_text};
use mesh_house::{Fail, Fails, ViewOf, Warehouse};
use mesh_keep::{KeepFail, Keeper, MapKeeper, Record, Records};
use mesh_keep_house::kept::{KeepFault, KeptHouse};
use mesh_list::Seq;
use mesh_sqlite::{SqliteFault, SqliteHouse, house_over};
use sqlite::{Connection, MemStore};
use std::alloc::Global;
use std::thread::Threads;

/// How many commands were run over records in a map and over SQLite too, and how often views were shown over the
/// former.
#[derive(Clone, Copy)]
pub struct Tally {
    pub mapped: u64,
    pub stored: u64,
    pub looks: u64,
}

impl Tally {
    /// Nothing yet.
    pub fn new() -> Tally {
        Tally {
            mapped: 0,
            stored: 0,
            looks: 0,
        }
    }

    pub fn add(&mut self, more: Tally) {
        self.mapped = self.mapped.saturating_add(more.mapped);
        self.stored = self.stored.saturating_add(more.stored);
        self.looks = self.looks.saturating_add(more.looks);
    }
}

/// The two warehouses, whether the example is run over each, the kind of the records that are printed at the end, and
/// what was run.
pub struct Beside {
    mapped: KeptHouse<MapKeeper>,
    stored: SqliteHouse<MemStore>,
    is_mapped: bool,
    is_stored: bool,
    printed: Option<u64>,
    tally: Tally,
}

/// The write of this number is to fail before its effect, where there is one.
fn fails_of(alloc: Global, write: Option<u64>) -> Result<Fails, Trouble> {
    let mut fails = Seq::new(alloc);
    if let Some(call) = write {
        fails.push(Fail {
            change: true,
            call,
            after: false,
        })?;
    }
    Ok(fails)
}

/// An empty warehouse over records in a map, of which one write may fail.
fn mapped(alloc: Global, write: Option<u64>) -> Result<KeptHouse<MapKeeper>, Trouble> {
    let fails = fails_of(alloc, write)?;
    match KeptHouse::new(alloc, MapKeeper::new(alloc, fails)) {
        Ok(house) => Ok(house),
        Err(KeepFault::Failed(_)) => Err(Trouble::Outside),
        Err(KeepFault::Memory(_)) => Err(Trouble::Memory),
    }
}

/// A connection that is no warehouse is closed.
fn closed(conn: Connection<MemStore>, trouble: Trouble) -> Trouble {
    drop(conn);
    trouble
}

/// An empty warehouse over SQLite in memory.
fn stored(alloc: Global) -> Result<SqliteHouse<MemStore>, Trouble> {
    let conn = Connection::open_in_memory(alloc)?;
    match house_over(alloc, conn) {
        Ok(house) => Ok(house),
        Err(SqliteFault::Refused(conn)) => Err(closed(conn, Trouble::Outside)),
        Err(SqliteFault::Memory(conn)) => Err(closed(conn, Trouble::Memory)),
    }
}

fn close(house: SqliteHouse<MemStore>) {
    drop(house.into_keeper().into_connection());
}

/// The steps that put a world in place of the warehouse's own, have calls fail, or say that nothing else is run.
const GIVEN: [&[u8]; 8] = [
    b"alone", b"fail", b"stops", b"cuts", b"book", b"lose", b"hide", b"empty",
];

fn is_given(step: &[u8]) -> bool {
    for given in GIVEN {
        if step == given {
            return true;
        }
    }
    false
}

fn first_word(line: &[u8]) -> &[u8] {
    match line.split(|byte| *byte == b' ').next() {
        Some(word) => word,
        None => line,
    }
}

/// The number that a step says, where there is one that begins so.
fn said_number(script: &[u8], front: &[u8]) -> Result<Option<u64>, Trouble> {
    for line in script.split(|byte| *byte == b'\n') {
        if let Some(number) = line.strip_prefix(front) {
            return Ok(Some(number_of(number)?));
        }
    }
    Ok(None)
}

/// Whether the warehouse of an example has no other world than its commands make, and no call of it fails.
fn is_plain(script: &[u8]) -> bool {
    for line in script.split(|byte| *byte == b'\n') {
        if is_given(first_word(line)) {
            return false;
        }
    }
    true
}

/// Adds what comes of a command over a further warehouse, where that isn't what came of it.
fn put_other(
    alloc: Global,
    report: &mut Vec<u8>,
    name: &[u8],
    outcome: &Outcome,
    other: Outcome,
) -> Result<(), Trouble> {
    if *outcome == other {
        return Ok(());
    }
    put(report, name)?;
    put_outcome(alloc, report, &other)
}

/// Adds what a further warehouse shows of some views, where that isn't this text.
fn put_look<W: Warehouse>(
    alloc: Global,
    report: &mut Vec<u8>,
    name: &[u8],
    house: &mut W,
    views: &[ViewOf],
    text: &[u8],
) -> Result<(), Trouble> {
    let mut shown = Vec::new(alloc);
    put_each(alloc, &mut shown, house, views)?;
    if same_text(shown.as_slice(), text) {
        return Ok(());
    }
    put(report, name)?;
    put(report, shown.as_slice())
}

fn put_record(report: &mut Vec<u8>, record: &Record) -> Result<(), Trouble> {
    put(report, record.name.as_slice())?;
    put(report, b" ")?;
    put(report, record.body.as_slice())?;
    put(report, b"\n")
}

fn records_in(alloc: Global, keeper: &mut MapKeeper, kind: u64) -> Result<Records, Trouble> {
    let Ok(kind) = u32::try_from(kind) else {
        return Err(Trouble::Script);
    };
    match keeper.all(alloc, kind) {
        Ok(records) => Ok(records),
        Err(KeepFail::Failed) => Err(Trouble::Outside),
        Err(KeepFail::Memory) => Err(Trouble::Memory),
    }
}

/// Adds the records of a kind that the map has, each its name and its body.
fn put_records(
    alloc: Global,
    report: &mut Vec<u8>,
    keeper: &mut MapKeeper,
    kind: u64,
) -> Result<(), Trouble> {
    let records = records_in(alloc, keeper, kind)?;
    put(report, b"records in the map:\n")?;
    for record in records.as_slice() {
        put_record(report, record)?;
    }
    Ok(())
}

const MAPPED: &[u8] = b"over records in a map:\n";

const STORED: &[u8] = b"over SQLite:\n";

impl Beside {
    /// Two empty warehouses for an example with this script.
    pub fn new(alloc: Global, script: &[u8]) -> Result<Beside, Trouble> {
        let is_plain = is_plain(script);
        let write = said_number(script, b"kept ")?;
        let printed = said_number(script, b"records ")?;
        let mapped = mapped(alloc, write)?;
        match stored(alloc) {
            Ok(stored) => Ok(Beside {
                mapped,
                stored,
                is_mapped: is_plain || write.is_some(),
                is_stored: is_plain,
                printed,
                tally: Tally::new(),
            }),
            Err(trouble) => {
                drop(mapped.into_keeper());
                Err(trouble)
            }
        }
    }

    /// Runs a command over each, and adds each outcome that isn't this one.
    pub fn command<R: Threads + Sync>(
        &mut self,
        rt: &R,
        stage: &mut Stage,
        words: &[Str],
        outcome: &Outcome,
        report: &mut Vec<u8>,
    ) -> Result<(), Trouble> {
        if self.is_mapped {
            self.tally.mapped = self.tally.mapped.saturating_add(1);
            let other = stage.run_mapped(rt, words, &mut self.mapped)?;
            put_other(stage.alloc, report, MAPPED, outcome, other)?;
        }
        if self.is_stored {
            self.tally.stored = self.tally.stored.saturating_add(1);
            let other = stage.run_beside(rt, words, &mut self.stored)?;
            put_other(stage.alloc, report, STORED, outcome, other)?;
        }
        Ok(())
    }

    /// Shows some views of each, and adds each text that isn't this one.
    pub fn look(
        &mut self,
        alloc: Global,
        views: &[ViewOf],
        text: &[u8],
        report: &mut Vec<u8>,
    ) -> Result<(), Trouble> {
        if self.is_mapped {
            self.tally.looks = self.tally.looks.saturating_add(1);
            put_look(alloc, report, MAPPED, &mut self.mapped, views, text)?;
        }
        if self.is_stored {
            put_look(alloc, report, STORED, &mut self.stored, views, text)?;
        }
        Ok(())
    }

    /// How much was run over both, which ends them. The records that are to be printed then are added.
    pub fn close(self, alloc: Global, report: &mut Vec<u8>) -> Result<Tally, Trouble> {
        let Beside {
            mapped,
            stored,
            is_mapped: _,
            is_stored: _,
            printed,
            tally,
        } = self;
        close(stored);
        let mut keeper = mapped.into_keeper();
        if let Some(kind) = printed {
            put_records(alloc, report, &mut keeper, kind)?;
        }
        Ok(tally)
    }
}
