//! A warehouse over the records of a keeper. It holds the world that the records say in memory: it reads all records
//! once, at its first call, and makes each change in memory and then by one write of the records that the change is
//! about; after a refusal the records are read anew. Its contract: where the keeper tells its records, and these are
//! those of a world, it tells that world, and is a warehouse of it; and where it tells a world, a call fails only
//! where the keeper fails.

mod fault;
mod house;
mod laws;
mod reading;
mod writing;

pub use fault::KeepFault;
pub use house::KeptHouse;
pub use laws::empty_records_begin_with_the_empty_world;
