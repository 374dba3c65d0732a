//! The world that the records of a keeper say, and the records that a warehouse begins with. Its contract: where a
//! keeper tells its records, what is loaded is the world that they say, and a record that isn't read is one that says
//! no thing of a world; and where there was no record of the moment, that of the empty book is put. Each call leaves
//! the keeper's count of faults no lower, and says that the keeper failed only where that count rose.

mod fault;
mod head;
mod lists;
mod loading;
mod taking;
mod thing;

pub use fault::LoadFail;
pub use head::begin;
pub use loading::load;
