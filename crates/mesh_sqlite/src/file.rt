// The warehouse in a file of the host.
use crate::keeper::{SqliteFault, SqliteHouse, house_over};
use mesh_keep::KeepFail;
use sqlite::{Connection, Error, ErrorCode, File, FileStore};

/// The warehouse in a file of the host.
pub type FileHouse = SqliteHouse<FileStore<File>>;

/// The connection goes.
fn dropped(conn: Connection<FileStore<File>>) {
    let _closed = conn.close();
}

/// The warehouse that a file has, which is made where it is not there.
pub fn opened(rt: &HostRuntime, file: &[u8]) -> Result<FileHouse, KeepFail> {
    let Ok(path) = std::str::from_utf8(file) else {
        return Err(KeepFail::Failed);
    };
    match Connection::open(rt, path) {
        Err(Error::SqliteFailure(ErrorCode::OutOfMemory)) => Err(KeepFail::Memory),
        Err(_) => Err(KeepFail::Failed),
        Ok(conn) => match house_over(rt.alloc(), conn) {
            Ok(house) => Ok(house),
            Err(SqliteFault::Refused(conn)) => {
                dropped(conn);
                Err(KeepFail::Failed)
            }
            Err(SqliteFault::Memory(conn)) => {
                dropped(conn);
                Err(KeepFail::Memory)
            }
        },
    }
}

/// Closes the file. What was changed is on the disk by then, so nothing hangs on what comes of it.
pub fn close(house: FileHouse) {
    dropped(house.into_keeper().into_connection());
}
