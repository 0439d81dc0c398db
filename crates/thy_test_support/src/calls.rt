//! What a call of the program is given in memory, and what it gave.
use std::alloc::{AllocError, Global};
use thy_out::MemSink;

/// What a call gave.
#[derive(Drop)]
pub struct Given {
    pub status: u8,
    pub cycles: u64,
    /// What the terminal took.
    pub printed: Vec<u8>,
    pub report: Vec<u8>,
}

impl Given {
    /// What a call gave that returned these numbers, and wrote to these sinks.
    pub fn of(
        alloc: Global,
        status: u8,
        cycles: u64,
        terminal: &MemSink,
        report: &MemSink,
    ) -> Result<Given, AllocError> {
        Ok(Given {
            status,
            cycles,
            printed: Vec::from_slice(alloc, terminal.taken())?,
            report: Vec::from_slice(alloc, report.taken())?,
        })
    }

    /// Whether the call had this status, printed this and reported that.
    pub fn shows(&self, status: u8, printed: &str, report: &str) -> bool {
        let is_printed = self.printed.as_slice() == printed.as_bytes();
        let is_reported = self.report.as_slice() == report.as_bytes();
        self.status == status && is_printed && is_reported
    }

    /// Whether the run exited, printed this, and reported this last.
    pub fn exits(&self, printed: &str, last: &str) -> bool {
        let is_printed = self.printed.as_slice() == printed.as_bytes();
        self.status == 0 && is_printed && self.report.as_slice().ends_with(last.as_bytes())
    }
}

/// The arguments of a line, which separates them by spaces.
pub fn arguments_of(alloc: Global, line: &str) -> Result<Vec<String>, AllocError> {
    let mut arguments = Vec::new(alloc);
    for argument in line.split(' ') {
        arguments.push(String::from_str(alloc, argument)?)?;
    }
    Ok(arguments)
}

/// A terminal or a report that fails at these calls.
pub fn sink(alloc: Global, failing: &[u64]) -> Result<MemSink, AllocError> {
    MemSink::new(alloc, 65_536, Vec::from_slice(alloc, failing)?)
}

/// Whether a text has a piece in it.
pub fn has(text: &[u8], piece: &str) -> bool {
    match std::str::from_utf8(text) {
        Ok(text) => text.contains(piece),
        Err(_) => false,
    }
}
