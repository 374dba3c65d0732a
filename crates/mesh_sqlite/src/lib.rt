//! Records in a file of SQLite, and the warehouse over them. There is one table, `things`, with the kind, the name
//! and the body of each record, which the `sqlite3` shell reads; each call is one transaction. Its contract: it is a
//! keeper that tells no records, so what is proved of it is that its calls are safe and that a fault is counted
//! wherever a call failed. That the file holds what was written rests on `sqlite`. `opened` and `close` are for a
//! file of the host.
#![tactic(auto)]

mod file;
mod keeper;
mod table;

pub use file::{FileHouse, close, opened};
pub use keeper::{SqliteFault, SqliteHouse, SqliteKeeper, house_over};
