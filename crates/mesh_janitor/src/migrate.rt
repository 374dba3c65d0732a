//! The fingerprints that a book's snapshots get when the book is moved to the present version. Its contract:
//! `book_renames` answers the map of a well-formed book, in which each snapshot has the SHA-256 of its definition and
//! of the fingerprints that the same map gives its parents, or the first two snapshots of one name that would get one
//! fingerprint.

mod entries;
mod fault;
mod laws;
mod renames;
mod twins;
mod walk;

pub use fault::MigrationFault;
pub use laws::{a_book_has_a_map, a_book_has_one_map, a_map_without_twins_moves_the_book};
pub use renames::book_renames;
