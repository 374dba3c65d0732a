// A keeper over a connection.
ghost use Rattle.std.specs.Prelude.{◌≡◌, ◌≤◌, IsErrOf, None};
ghost use Rattle.mesh_list.specs.Counts.{Rose};
ghost use Rattle.mesh_keep.specs.declared.keeper.KeepFail.TheVariants.{Failed};

use crate::table::{fail_of, find, list, make_table, put_all};
use mesh_base_values::Str;
use mesh_keep::{KeepFail, Keeper, Records, Writes, counted};
use mesh_keep_house::kept::{KeepFault, KeptHouse};
use mesh_list::Seq;
use sqlite::{Alter, Connection, Error};
use std::alloc::Global;

/// The warehouse in a file of SQLite.
pub type SqliteHouse<S> = KeptHouse<SqliteKeeper<S>>;

/// Records in the table of a connection.
pub struct SqliteKeeper<S: Alter> {
    conn: Connection<S>,
    faults: u64,
}

/// A connection that can't keep records: a statement was refused, or there was not enough memory.
pub enum SqliteFault<S: Alter> {
    Refused(Connection<S>),
    Memory(Connection<S>),
}

impl<S: Alter> SqliteKeeper<S> {
    /// The records that the connection has. Its table is made where it is not there.
    pub fn new(conn: Connection<S>) -> Result<SqliteKeeper<S>, SqliteFault<S>> {
        let mut conn = conn;
        match make_table(&mut conn) {
            Ok(()) => Ok(SqliteKeeper { conn, faults: 0 }),
            Err(e) => match fail_of(e) {
                KeepFail::Failed => Err(SqliteFault::Refused(conn)),
                KeepFail::Memory => Err(SqliteFault::Memory(conn)),
            },
        }
    }

    /// The connection, which ends the keeper.
    pub fn into_connection(self) -> Connection<S> {
        let SqliteKeeper { conn, faults: _ } = self;
        conn
    }

    // Counts a refusal that is not want of memory.
    fn note(&mut self, error: Error) -> KeepFail
        ensures faults { self.old.faults ≤ self.new.faults }
        ensures failed { result ≡ Failed → Rose self.old.faults self.new.faults }
    {
        counted(&mut self.faults, fail_of(error))
    }
}

impl<S: Alter> Keeper for SqliteKeeper<S> {
    ghost told = { λ k. record { records = None; faults = k.faults } };

    fn get(&mut self, _alloc: Global, kind: u32, name: &Str) -> Result<Option<Str>, KeepFail> {
        match find(&mut self.conn, kind, name.as_slice()) {
            Ok(Some(body)) => Ok(Some(Seq::from_vec(body))),
            Ok(None) => Ok(None),
            Err(e) => Err(self.note(e)),
        }
    }

    fn all(&mut self, alloc: Global, kind: u32) -> Result<Records, KeepFail> {
        match list(alloc, &mut self.conn, kind) {
            Ok(all) => Ok(all),
            Err(e) => Err(self.note(e)),
        }
    }

    fn write(&mut self, _alloc: Global, writes: &Writes) -> Result<(), KeepFail> {
        match put_all(&mut self.conn, writes.as_slice()) {
            Ok(()) => Ok(()),
            Err(fail) => Err(counted(&mut self.faults, fail)),
        }
    }

    fn faults(&self) -> u64 {
        self.faults
    }
}

/// The warehouse that a connection has.
pub fn house_over<S: Alter>(
    alloc: Global,
    conn: Connection<S>,
) -> Result<SqliteHouse<S>, SqliteFault<S>> {
    let keeper = match SqliteKeeper::new(conn) {
        Ok(keeper) => keeper,
        Err(fault) => return Err(fault),
    };
    match KeptHouse::new(alloc, keeper) {
        Ok(house) => Ok(house),
        Err(KeepFault::Failed(keeper)) => Err(SqliteFault::Refused(keeper.into_connection())),
        Err(KeepFault::Memory(keeper)) => Err(SqliteFault::Memory(keeper.into_connection())),
    }
}
