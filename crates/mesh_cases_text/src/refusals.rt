// The lines of faults in print, each behind a blank.
use mesh_cases::Pen;
use mesh_cli_print::faults::fault_line;
use mesh_query_tokens::{FaultKind, ReadFault};

/// The line of a fault in some file.
pub fn put_fault_of(pen: &mut Pen, file: &[u8], at: u64, kind: &FaultKind) {
    match fault_line(pen.alloc(), file, at, kind) {
        Ok(line) => pen.word(line.as_slice()),
        Err(_) => pen.lose(),
    }
}

/// The line of what was refused in some text.
pub fn put_fault(pen: &mut Pen, fault: &ReadFault) {
    match fault {
        ReadFault::Fault { at, kind } => put_fault_of(pen, b"-", *at, kind),
        ReadFault::Memory => pen.lose(),
    }
}
