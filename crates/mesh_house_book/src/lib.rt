//! The book of a warehouse: which snapshots, versions and environments there are, and the greatest moment of a
//! command. Its contract: each kind of change makes of a book what its definition says, and nothing where memory is
//! wanting; `book_fault` is the first breach of the rules of a well-formed book, and takes no memory.
//! The module `moves` has intervals and marks that are forgotten, and other fingerprints.
#![tactic(auto)]

mod book;
mod changes;
mod fault;
mod fits;
pub mod moves;
mod named;
mod outputs;
mod seen;
mod versions;

pub use book::{BOOK_VERSION, Book, OLD_VERSION};
pub use fault::{
    BookFault, ENVIRONMENTS_PART, MOMENT_PART, SNAPSHOTS_PART, VERSIONS_PART, book_fault,
};
pub use fits::HIGHEST_RANK;
pub use versions::{Version, Versions};
