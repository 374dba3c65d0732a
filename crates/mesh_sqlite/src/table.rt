// The table of records, and the statements over it.
use mesh_keep::{KeepFail, Record, Records, Write};
use mesh_list::Seq;
use sqlite::{Alter, Connection, Error, ErrorCode, Transaction, params};
use std::alloc::Global;

const CREATE: &str =
    "CREATE TABLE IF NOT EXISTS things (kind INTEGER, name BLOB, body BLOB, PRIMARY KEY (kind, name)) STRICT";

const UPSERT: &str =
    "INSERT INTO things (kind, name, body) VALUES (?1, ?2, ?3) ON CONFLICT (kind, name) DO UPDATE SET body = excluded.body";

const REMOVE: &str = "DELETE FROM things WHERE kind = ?1 AND name = ?2";

const FIND: &str = "SELECT body FROM things WHERE kind = ?1 AND name = ?2";

const LIST: &str = "SELECT name, body FROM things WHERE kind = ?1 ORDER BY name";

/// Want of memory, or any other refusal.
pub(crate) fn fail_of(error: Error) -> KeepFail {
    match error {
        Error::SqliteFailure(ErrorCode::OutOfMemory) => KeepFail::Memory,
        _ => KeepFail::Failed,
    }
}

/// Makes the table where it is not there.
pub(crate) fn make_table<S: Alter>(conn: &mut Connection<S>) -> Result<(), Error> {
    let _count = conn.execute(CREATE, &[])?;
    Ok(())
}

fn put<S: Alter>(tx: &mut Transaction<'_, S>, write: &Write) -> Result<(), Error> {
    let name = write.name.as_slice();
    match &write.body {
        Some(body) => {
            let _count = tx.execute(UPSERT, params![write.kind, name, body.as_slice()])?;
        }
        None => {
            let _count = tx.execute(REMOVE, params![write.kind, name])?;
        }
    }
    Ok(())
}

/// All writes in one transaction. A commit that is refused has failed whatever its cause was, memory too: the file may
/// hold the writes or not.
pub(crate) fn put_all<S: Alter>(
    conn: &mut Connection<S>,
    writes: &[Write],
) -> Result<(), KeepFail> {
    if !conn.is_autocommit() {
        return Err(KeepFail::Failed);
    }
    let mut tx = conn.transaction();
    for write in writes {
        if let Err(error) = put(&mut tx, write) {
            return Err(fail_of(error));
        }
    }
    tx.commit().map_err(|_| KeepFail::Failed)
}

/// The body of a record.
pub(crate) fn find<S: Alter>(
    conn: &mut Connection<S>,
    kind: u32,
    name: &[u8],
) -> Result<Option<Vec<u8>>, Error> {
    match conn.query_row(FIND, params![kind, name]) {
        Ok(row) => Ok(Some(row.get(0)?)),
        Err(Error::QueryReturnedNoRows) => Ok(None),
        Err(e) => Err(e),
    }
}

/// The records of a kind.
pub(crate) fn list<S: Alter>(
    alloc: Global,
    conn: &mut Connection<S>,
    kind: u32,
) -> Result<Records, Error> {
    let rows = conn.query_all(LIST, params![kind])?;
    let mut all = Vec::new(alloc);
    for row in &rows {
        let name = row.get(0)?;
        let body = row.get(1)?;
        all.push(Record {
            name: Seq::from_vec(name),
            body: Seq::from_vec(body),
        })?;
    }
    Ok(Seq::from_vec(all))
}
