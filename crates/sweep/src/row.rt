//! The line of one row: cycles after which a cut leaves the same images.
ghost use Rattle.std.specs.Prelude.{◌≡◌, []};
ghost use Rattle.sweep.specs.Kept.{extended};

use std::alloc::{AllocError, Global};
use thy_sweep::Lead;

/// What an image is named by.
#[derive(Clone, Copy, Debug, PartialEq, Eq)]
pub enum Name {
    /// The least pick that gives it.
    Pick(u64),
    /// The image's number among all that a cut can leave.
    Number(u64),
}

/// Cycles after which a cut leaves the same images, and what these lead to.
#[derive(Drop)]
pub struct Row {
    /// The numbers of the first and of the last of the row's cycles.
    pub first: u64,
    pub last: u64,
    /// How many instructions were retired after the first and after the last.
    pub from_count: u64,
    pub to_count: u64,
    /// How many writes are queued after each of the row's cycles.
    pub queued: u64,
    /// How many images a cut can leave.
    pub images: u128,
    /// How many of these images were tried.
    pub tried: u64,
    pub leads: Vec<Lead>,
    /// Images that led to a state which is not the plain machine's. There is none.
    pub differs: Vec<Name>,
}

/// Adds the line of an image that led to a state which is not the plain machine's.
fn add_difference(
    alloc: Global,
    text: &mut String,
    cycle: u64,
    name: Name,
) -> Result<(), AllocError> {
    let line = match name {
        Name::Pick(pick) => format!(in alloc; "differs {cycle} by pick {pick}\n")?,
        Name::Number(number) => format!(in alloc; "differs {cycle} by image {number}\n")?,
    };
    text.push_str(line.as_str())
}

/// Adds what the boots of one checkpoint came to.
fn add_lead(alloc: Global, text: &mut String, lead: &Lead) -> Result<(), AllocError> {
    let Lead {
        mark,
        times,
        least,
        most,
    } = *lead;
    let line = match mark {
        Some(mark) => format!(in alloc;
            ", epoch {} at {} times {times} boot {least} {most}",
            mark.epoch, mark.count
        )?,
        None => format!(in alloc; ", none times {times} boot {least} {most}")?,
    };
    text.push_str(line.as_str())
}

impl Row {
    /// A row of one cycle, of which nothing was tried yet.
    pub fn new(alloc: Global, cycle: u64, count: u64, queued: u64) -> Row
        ensures first { result.first ≡ cycle }
        ensures last { result.last ≡ cycle }
        ensures queued { result.queued ≡ queued }
        ensures untried { result.tried ≡ 0 }
        ensures empty { result.leads.items ≡ [] }
    {
        Row {
            first: cycle,
            last: cycle,
            from_count: count,
            to_count: count,
            queued,
            images: 0,
            tried: 0,
            leads: Vec::new(alloc),
            differs: Vec::new(alloc),
        }
    }

    /// Adds a cycle, after which a cut leaves the same images, and its count of instructions.
    pub fn extend(&mut self, cycle: u64, count: u64)
        ensures { self.new ≡ extended cycle count self.old }
    {
        self.last = cycle;
        self.to_count = count;
    }

    /// Adds the row's line to a text, and a line for each image that differs.
    ///
    /// # Errors
    /// Memory ran out.
    pub fn add_to(&self, alloc: Global, text: &mut String) -> Result<(), AllocError> {
        for name in &self.differs {
            add_difference(alloc, text, self.first, *name)?;
        }
        let head = format!(in alloc;
            "cycles {} {} counts {} {} queued {} images {} tried {}",
            self.first,
            self.last,
            self.from_count,
            self.to_count,
            self.queued,
            self.images,
            self.tried
        )?;
        text.push_str(head.as_str())?;
        for lead in &self.leads {
            add_lead(alloc, text, lead)?;
        }
        text.push_str("\n")
    }
}
