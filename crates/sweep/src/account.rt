//! What a sweep comes to so far: its text, its open row, and its sums.
ghost use Rattle.std.specs.Prelude.{◌≡◌, ◌||◌, true, false, List, ◌∷◌, None, Some, is_some, OnOk, option_map};
ghost use Rattle.thy_sweep.specs.Sums.{no_rows};
ghost use Rattle.sweep.specs.Concluding.{is_empty};
ghost use Rattle.sweep.specs.Kept.{closed_into, differs_in, extended};
ghost use Rattle.sweep.specs.Still.{IsKept, IsLooked};
ghost use Rattle.thy_block.specs.declared.nvm.Write.{Write as Written};
ghost use Rattle.thy_block.specs.Device.{block_at};

use crate::row::Row;
use std::alloc::{AllocError, Global};
use thy_base::{Block, Write};
use thy_sweep::{Lead, OverMemory, Sums, is_still};

/// How many restarts of an epoch's checkpoint there were.
#[derive(Clone, Copy, Debug)]
struct Restarts {
    epoch: u64,
    times: u64,
}

/// The device as it was when the open row began.
#[derive(Drop)]
struct Kept {
    queue: Vec<Write>,
    /// The block that had landed at the place of the oldest queued write.
    first: Block,
    /// Whether the device was different after a cycle since.
    changed: bool,
}

/// What a sweep comes to so far.
#[derive(Drop)]
pub struct Account {
    text: String,
    current: Option<Row>,
    kept: Kept,
    sums: Sums,
    restarts: Vec<Restarts>,
    differs: bool,
}

/// Why a sweep stops.
#[derive(Clone, Copy, Debug, PartialEq, Eq)]
pub enum Last {
    /// The program exited with a value, at a count.
    Exited(u64, u64),
    /// The program trapped with a number, at a count.
    Trapped(u64, u64),
    /// The last cycle that was asked for is done.
    To(u64),
    /// The limit of cycles is reached.
    Limit(u64),
    /// The device failed.
    Nvm,
    /// The terminal failed.
    Terminal,
    /// The report failed.
    Report,
    /// Memory ran out.
    Memory,
}

/// Counts restarts of an epoch.
fn count_restarts(restarts: &mut Vec<Restarts>, epoch: u64, times: u64) -> Result<(), AllocError> {
    for known in restarts.iter_mut() {
        if known.epoch == epoch {
            known.times = known.times.saturating_add(times);
            return Ok(());
        }
    }
    restarts.push(Restarts { epoch, times })?;
    Ok(())
}

/// Counts the restarts that the boots of a row led to.
fn count_leads(restarts: &mut Vec<Restarts>, leads: &[Lead]) -> Result<(), AllocError> {
    for lead in leads {
        let Lead { mark, times, .. } = *lead;
        if let Some(mark) = mark {
            count_restarts(restarts, mark.epoch, times)?;
        }
    }
    Ok(())
}

/// Keeps the queue of a device.
fn keep_queue<N: OverMemory>(queue: &mut Vec<Write>, nvm: &N) -> Result<(), AllocError>
    requires { (N.device nvm.now).down ≡ false }
    ensures { OnOk result (queue.new.items ≡ (N.device nvm.now).queue) }
{
    queue.clear();
    for i in 0..nvm.queued() {
        queue.push(nvm.waiting(i))?;
    }
    Ok(())
}

/// The block that has landed at the place of a device's oldest queued write, if there is one.
fn first_of<N: OverMemory>(nvm: &N) -> Block
    requires { (N.device nvm.now).down ≡ false }
    ensures { let n = N.device nvm.now in
        (w : Written) (ws : List Written) → n.queue ≡ w ∷ ws → result ≡ block_at n.image w.at }
{
    if nvm.queued() == 0 {
        return Block::ZERO;
    }
    let at = nvm.waiting(0).at;
    nvm.landed(at)
}

impl Kept {
    /// Keeps a device as it is.
    fn keep<N: OverMemory>(&mut self, nvm: &N) -> Result<(), AllocError>
        requires { (N.device nvm.now).down ≡ false }
        ensures { OnOk result (IsKept self.new (N.device nvm.now)) }
    {
        keep_queue(&mut self.queue, nvm)?;
        self.first = first_of(nvm);
        self.changed = false;
        Ok(())
    }

    /// Looks at the device after a cycle.
    fn look<N: OverMemory>(&mut self, nvm: &N)
        requires { (N.device nvm.now).down ≡ false }
        ensures { IsLooked self.old self.new (N.device nvm.now) }
    {
        if self.changed {
            return;
        }
        let still = is_still(self.queue.as_slice(), &self.first, nvm);
        self.changed = !still;
    }
}

/// Whether a state differs, or one that an image of a row led to.
fn has_difference(differs: bool, row: &Row) -> bool
    ensures { result ≡ (differs || differs_in row.now) }
{
    differs || row.differs.len() > 0
}

impl Account {
    /// An account of no images.
    pub fn new(alloc: Global) -> Account
        ensures current { result.current ≡ None }
        ensures unkept { result.kept.changed ≡ true }
        ensures same { result.differs ≡ false }
        ensures sums { result.sums ≡ no_rows }
    {
        Account {
            text: String::new(alloc),
            current: None,
            kept: Kept {
                queue: Vec::new(alloc),
                first: Block::ZERO,
                changed: true,
            },
            sums: Sums::new(),
            restarts: Vec::new(alloc),
            differs: false,
        }
    }

    /// Looks at the device after a cycle.
    pub fn look<N: OverMemory>(&mut self, nvm: &N)
        requires { (N.device nvm.now).down ≡ false }
        ensures looked { IsLooked self.old.kept self.new.kept (N.device nvm.now) }
        ensures differs { self.new.differs ≡ self.old.differs }
        ensures current { self.new.current ≡ self.old.current }
        ensures sums { self.new.sums ≡ self.old.sums }
    {
        self.kept.look(nvm);
    }

    /// Whether the device is as it was when the open row began. If it is, the row takes this cycle, with its count of instructions, in.
    pub fn repeats(&mut self, cycle: u64, count: u64) -> bool
        ensures still { result ≡ true → self.new.kept.changed ≡ false }
        ensures kept { self.new.kept ≡ self.old.kept }
        ensures differs { self.new.differs ≡ self.old.differs }
        ensures some { result ≡ true → is_some self.old.current ≡ true }
        ensures more { result ≡ true → self.new.current ≡ option_map (extended cycle count) self.old.current }
        ensures other { result ≡ false → self.new.current ≡ self.old.current }
        ensures sums { self.new.sums ≡ self.old.sums }
    {
        if self.kept.changed {
            return false;
        }
        match &mut self.current {
            Some(row) => {
                row.extend(cycle, count);
                true
            }
            None => false,
        }
    }

    /// Whether a state was found that is not the plain machine's.
    pub fn differs(&self) -> bool
        ensures { result ≡ self.now.differs }
    {
        self.differs
    }

    /// Whether no image was tried.
    pub fn is_empty(&self) -> bool
        ensures { result ≡ is_empty self.now }
    {
        self.current.is_none() && self.sums.cycles == 0
    }

    /// Closes the open row, if there is one.
    fn close(&mut self, alloc: Global) -> Result<(), AllocError>
        ensures current { self.new.current ≡ None }
        ensures differs { self.new.differs ≡ self.old.differs }
        ensures sums { OnOk result (self.new.sums ≡ closed_into self.old.current self.old.sums) }
    {
        let Some(row) = self.current.take() else {
            return Ok(());
        };
        row.add_to(alloc, &mut self.text)?;
        self.sums = self.sums.with_row(row.to_count, &row.leads);
        count_leads(&mut self.restarts, &row.leads)
    }

    /// Opens a row whose images were tried over this device.
    ///
    /// # Errors
    /// Memory ran out.
    pub fn open<N: OverMemory>(
        &mut self,
        alloc: Global,
        row: Row,
        nvm: &N,
    ) -> Result<(), AllocError>
        requires { (N.device nvm.now).down ≡ false }
        ensures current { OnOk result (self.new.current ≡ Some row) }
        ensures kept { OnOk result (IsKept self.new.kept (N.device nvm.now)) }
        ensures differs { OnOk result (self.new.differs ≡ (self.old.differs || differs_in row)) }
        ensures sums { OnOk result (self.new.sums ≡ closed_into self.old.current self.old.sums) }
    {
        self.close(alloc)?;
        self.kept.keep(nvm)?;
        self.differs = has_difference(self.differs, &row);
        self.current = Some(row);
        Ok(())
    }

    /// Adds the sums.
    fn add_sums(&mut self, alloc: Global) -> Result<(), AllocError> {
        let Sums {
            states,
            cycles,
            reloads,
            decided,
            longest,
            most_lost,
            lost,
        } = self.sums;
        let head = format!(in alloc; "states {states} rows {cycles}\n")?;
        self.text.push_str(head.as_str())?;
        for known in &self.restarts {
            let Restarts { epoch, times } = *known;
            let line = format!(in alloc; "restarts {epoch} {times}\n")?;
            self.text.push_str(line.as_str())?;
        }
        let tail = format!(in alloc;
            "reloads {reloads}\ndecided {decided}\nlongest boot {longest}\nlost most {most_lost} sum {lost}\n"
        )?;
        self.text.push_str(tail.as_str())
    }

    /// Adds why the sweep stops.
    fn add_last(&mut self, alloc: Global, last: Last) -> Result<(), AllocError> {
        let line = match last {
            Last::Exited(value, count) => format!(in alloc; "exit {value} at {count}\n")?,
            Last::Trapped(number, count) => format!(in alloc; "trap {number} at {count}\n")?,
            Last::To(cycle) => format!(in alloc; "to {cycle}\n")?,
            Last::Limit(cycles) => format!(in alloc; "limit {cycles}\n")?,
            Last::Nvm => String::from_str(alloc, "nvm\n")?,
            Last::Terminal => String::from_str(alloc, "terminal\n")?,
            Last::Report => String::from_str(alloc, "report\n")?,
            Last::Memory => String::from_str(alloc, "memory\n")?,
        };
        self.text.push_str(line.as_str())
    }

    /// The text of the sweep, with the open row, the sums and why the sweep stopped.
    ///
    /// # Errors
    /// Memory ran out.
    pub fn into_text(self, alloc: Global, last: Last) -> Result<String, AllocError> {
        let mut all = self;
        all.close(alloc)?;
        all.add_sums(alloc)?;
        all.add_last(alloc, last)?;
        let Account { text, .. } = all;
        Ok(text)
    }
}
