// The folder, the clock and the streams of the host.
use crate::calls::{list, now, put, read, take, take_first};
use mesh_cases::{Pen, Trouble};
use mesh_io::{DirFolder, StdSink, StdSource, SystemClock};

/// The last second of 9999-12-31.
const LAST: i64 = 253_402_300_799;

/// What the host has, each with the faults that it has counted.
#[derive(Drop)]
pub struct Host<'a> {
    folder: DirFolder<'a>,
    clock: SystemClock<'a>,
    source: StdSource<'a>,
    sink: StdSink<'a>,
}

impl<'a> Host<'a> {
    /// With no fault yet.
    pub fn new(rt: &'a HostRuntime) -> Host<'a> {
        Host {
            folder: DirFolder::new(rt),
            clock: SystemClock::new(rt),
            source: StdSource::new(rt),
            sink: StdSink::output(rt),
        }
    }

    fn now(&mut self, pen: &mut Pen) {
        if let Some(moment) = now(&mut self.clock, pen) {
            pen.put(if moment >= 0 && moment <= LAST {
                b", within"
            } else {
                b", outside"
            });
        }
    }

    /// Makes the call of a word, if it is one of these.
    pub fn call(&mut self, word: &[u8], text: &[u8], pen: &mut Pen) -> Result<bool, Trouble> {
        if word == b"host-list".as_slice() {
            list(&mut self.folder, text, pen)?;
        } else if word == b"host-read".as_slice() {
            read(&mut self.folder, text, pen)?;
        } else if word == b"host-now".as_slice() {
            self.now(pen);
        } else if word == b"host-take".as_slice() {
            take(&mut self.source, text, pen)?;
        } else if word == b"host-take-all".as_slice() {
            take_first(&mut self.source, text, pen)?;
        } else if word == b"host-put".as_slice() {
            put(&mut self.sink, text, pen);
        } else {
            return Ok(false);
        }
        Ok(true)
    }
}
