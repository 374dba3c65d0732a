//! The thing that the body of a record says, as a function of the bytes. Its contract: a body of a program's length
//! says exactly the thing whose body, as `mesh_keep_records/specs/Records.antt` spells it out, it is, where a program
//! can hold that thing; other bytes say none.

mod laws;

pub use laws::bodies_are_read;
