// What a suite has to say of its cases.
use crate::trouble::Trouble;
use mesh_io::{Sink, StdSink};
use std::alloc::Global;

/// Adds a number in decimal digits.
pub fn put_number(alloc: Global, report: &mut Vec<u8>, number: i64) -> Result<(), Trouble> {
    let digits = format!(in alloc; "{number}")?;
    report.extend_from_slice(digits.as_bytes())?;
    Ok(())
}

/// Adds a count in decimal digits.
pub fn put_count(alloc: Global, report: &mut Vec<u8>, count: u64) -> Result<(), Trouble> {
    let digits = format!(in alloc; "{count}")?;
    report.extend_from_slice(digits.as_bytes())?;
    Ok(())
}

/// Prints the report of a suite, and what it ended with where that is trouble. Whether it ran to its end and is
/// printed.
pub fn is_printed(rt: &HostRuntime, report: &[u8], done: Result<(), Trouble>) -> bool {
    let mut out = StdSink::output(rt);
    let is_put = out.put(report).is_ok();
    match done {
        Ok(()) => is_put,
        Err(trouble) => {
            let _ = eprintln!(rt; "{trouble:?}");
            false
        }
    }
}
