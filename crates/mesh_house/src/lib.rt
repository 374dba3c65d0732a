//! The warehouse as the program sees it: the world that it keeps, the changes that are made to it one by one, the
//! trait of what keeps one, and a house in memory whose calls fail by a list. Its contract: a change that is answered
//! by `Ok` was made exactly once, one that failed was made or not and left a count of faults raised, and what is read
//! is what the world has; a call over a list of changes makes all of it, or stops after a part of it.
#![tactic(auto)]

mod buffered;
mod copies;
mod fails;
mod gone;
mod house;
mod latest;
mod laws;
mod making;
mod memory;
mod objects;
mod outside;
mod reads;
mod same;
mod sources;
mod step;
mod world;

pub use fails::{Fail, Fails};
pub use house::{Warehouse, WhFail};
pub use laws::calls_go_on_from_one_another;
pub use making::{make, make_all};
pub use memory::MemHouse;
pub use mesh_house_book::{Book, BookFault, Version, Versions, book_fault};
pub use objects::{Body, Object, Objects};
pub use sources::SourceTables;
pub use world::{Change, Changes, ViewOf, World};
