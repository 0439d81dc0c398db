//! A device whose lines wander over an inner one.
ghost use Rattle.std.specs.Prelude.{◌≡◌, ◌+◌, ◌^◌, ◌<◌, ◌≤◌, false, length, IfOk, OnOk, OnErr, IfErr, MatchResult, slice_index_or, []};
ghost use Rattle.thy_block.specs.declared.nvm.Write.{Write as Written};
ghost use Rattle.thy_block.specs.Device.{Crash, newest, block_at, written_to, drained, fitted, IsCut, IsSettled, IsFramed, HasFailed, HasFailedToSettle, HasFailedToWrite, HasFailedToFit, CountsFault};
ghost use Rattle.thy_block.specs.Counts.{next};
ghost use Rattle.thy_gap.specs.Levelled.{over as levelled_over, over_copy, shown, first_image, inner_fitted, IsOver, HasFitted, HasWritten, is_due as due_by, HasMovedIfDue, settled_and_moved, HasCut, counted_on, moves_on};
ghost use Rattle.thy_gap.specs.Moving.{with_counts_of};
ghost use Rattle.thy_gap.specs.Lines.{place as place_of_line};
ghost use Rattle.thy_gap.specs.Seen.{unmapped};
ghost use Rattle.thy_gap.specs.Meaning.{ImageMeansSeen, CrashMeansSeen, LeftMeansSeen, RegistersMeanMoves};

use crate::Registers;
use crate::moving::{move_line, registers_kept};
use std::alloc::{AllocError, Global};
use std::marker::Model;
use thy_block::{Block, FitError, Nvm, NvmError, Shape, Write};

/// A device of n blocks, its lines, over an inner device of n + 2. Whenever a number of writes were made, the next
/// barrier moves one line by one place, so that a line that is written often wears each place in turn. The last place
/// has the registers and does not wander: they are written there with each move. A move can change two words of their
/// block, so over a device whose blocks do not land whole the lines stay where they are.
#[derive(Drop)]
pub struct Gap<N: Nvm> {
    inner: N,
    // After how many writes a barrier moves a line.
    every: u64,
    registers: Registers,
    // How many writes succeeded since the last move of a line, or the fit. Saturates.
    since: u64,
    // How often a line has moved since the fit. Saturates.
    moves: u64,
    // How many cuts there were since the last fit.
    cuts: u64,
}

impl<N: Nvm> Model for Gap<N> {
    ghost use Rattle.thy_gap.specs.Levelled.{Levelled, IsSoundGap};

    ghost Value = { Levelled N };

    ghost view = { λ g. record { inner = g.inner; every = g.every; registers = g.registers; since = g.since; moves = g.moves; cuts = g.cuts } };

    ghost invariant = { λ g. IsSoundGap g.every g.registers g.since g.moves g.cuts (N.device g.inner) };
}

impl<N: Nvm> Gap<N> {
    /// Levels the wear of a device: once `every` writes were made, the next barrier moves a line, if its blocks land whole.
    /// The device has no blocks until it is fitted.
    pub fn over(inner: N, every: u64) -> Gap<N>
        requires { 0 < every }
        ensures { result ≡ levelled_over inner every }
    {
        Gap {
            inner,
            every,
            registers: Registers::none(),
            since: 0,
            moves: 0,
            cuts: 0,
        }
    }

    /// The registers that the device works with: where each line lies.
    pub fn registers(&self) -> Registers
        ensures { result ≡ self.now.registers }
    {
        self.registers
    }

    /// The place of a line in the inner device, in blocks.
    pub fn place(&self, line: u64) -> u64
        requires { line < length (shown N.device self.now).image }
        ensures { result ≡ place_of_line self.now.registers line }
    {
        self.registers.place(line)
    }

    /// Gives back the inner device.
    pub fn into_inner(self) -> N
        ensures { result ≡ self.inner }
    {
        self.inner
    }

    /// The inner device, to look at.
    pub fn inner(&self) -> &N
        ensures { result.now ≡ self.now.inner }
    {
        &self.inner
    }

    /// The place in the inner device where a line's block has landed.
    pub fn landed_at(&self, line: u64) -> u64
        requires { line < length (shown N.device self.now).image }
        ensures within { result < length (N.device self.now.inner).image }
        ensures block { let landed = block_at (N.device self.now.inner).image result in
            landed ≡ block_at (shown N.device self.now).image line }
    {
        self.registers.place(line)
    }

    /// How many blocks the inner device has.
    pub fn inner_blocks(&self) -> u64
        requires { 0 < length (shown N.device self.now).image }
        ensures { result ≡ length (shown N.device self.now).image + 2 }
    {
        self.registers.lines + 2
    }

    /// The inner device has two blocks more, and the same room for images.
    pub fn recall_size(&self)
        requires { 0 < length (shown N.device self.now).image }
        ensures blocks { length (N.device self.now.inner).image ≡ length (shown N.device self.now).image + 2 }
        ensures room { (shown N.device self.now).left_room ≡ (N.device self.now.inner).left_room }
    {
        let _ = &self.cuts;
    }

    /// Each queued write of a device that is up has one in the inner device.
    pub fn recall_queue(&self)
        requires { (N.device self.now.inner).down ≡ false }
        ensures { length (shown N.device self.now).queue ≤ length (N.device self.now.inner).queue }
    {
        let _ = &self.cuts;
    }

    /// The queued write at a position, the oldest at 0, by the one at this position in the inner device.
    pub fn line_write(&self, i: u64, inner: &Write) -> Write
        requires up { (N.device self.now.inner).down ≡ false }
        requires index { i < length (shown N.device self.now).queue }
        requires inner { (w : Written) → slice_index_or (N.device self.now.inner).queue i w ≡ inner.now }
        ensures write { (w : Written) → slice_index_or (shown N.device self.now).queue i w ≡ result }
        ensures place { result.at < length (shown N.device self.now).image }
    {
        Write {
            at: self.registers.line(inner.at),
            block: inner.block,
        }
    }

    /// The lines over another inner device, which holds what a cut may leave of this one's, and keeps nothing yet.
    pub fn over_copy<C: Nvm>(&self, copy: C) -> Gap<C>
        requires some { 0 < length (shown N.device self.now).image }
        requires up { (N.device self.now.inner).down ≡ false }
        requires left { Crash (N.device self.now.inner) (C.device copy).image }
        requires empty { (C.device copy).queue ≡ [] }
        requires unkept { (C.device copy).left ≡ [] }
        requires room { (C.device copy).left_room < 2 ^ 64 }
        ensures copied { result ≡ over_copy copy self.now }
        ensures image { (shown C.device result).image ≡ unmapped (C.device copy).image }
        ensures crash { Crash (shown N.device self.now) (shown C.device result).image }
        ensures queue { (shown C.device result).queue ≡ [] }
    {
        Gap {
            inner: copy,
            every: self.every,
            registers: self.registers,
            since: self.since,
            moves: self.moves,
            cuts: 0,
        }
    }

    /// What an inner image means by its own registers is the device of lines, also after a call that failed. This holds
    /// of the current image, of each that a cut may leave, and of each that was kept.
    pub fn recall_meaning(&self)
        ensures image { ImageMeansSeen (N.device self.now.inner) (shown N.device self.now) }
        ensures crash { CrashMeansSeen (N.device self.now.inner) (shown N.device self.now) }
        ensures left { LeftMeansSeen (N.device self.now.inner) (shown N.device self.now) }
        ensures moves { RegistersMeanMoves (N.device self.now.inner) (shown N.device self.now) self.now.moves }
    {
        let _ = &self.cuts;
    }
}

/// The inner image of a fit: the start and zeros, one of them at the gap, and the registers.
#[tactic(auto, unfolding(thy_block::specs::Device::zero_block))]
fn first_blocks(start: Vec<Block>, lines: u64) -> Result<Vec<Block>, AllocError>
    requires start { length start.items ≤ lines }
    requires room { lines + 2 < 2 ^ 64 }
    ensures { IfOk result (λ v. v.items ≡ first_image lines start.items) }
{
    let mut image = start;
    image.resize(lines as usize + 1, Block::ZERO)?;
    image.push(Registers::unmoved(lines).block())?;
    Ok(image)
}

/// How many writes count towards the next move after a cut, by the registers before it and the ones in the image that
/// it left: none if the cut completed a move, which takes the gap to another place.
fn counted_on(before: Registers, left: Registers, since: u64) -> u64
    ensures { result ≡ counted_on before left since }
{
    if left.gap == before.gap { since } else { 0 }
}

/// How often a line has moved after a cut, by the registers before it and in the image that it left: once more if the cut
/// completed a move.
fn moves_on(before: Registers, left: Registers, moves: u64) -> u64
    ensures { result ≡ moves_on before left moves }
{
    if left.gap == before.gap {
        moves
    } else {
        moves.saturating_add(1)
    }
}

/// Whether a barrier moves a line after this number of writes: it is what was asked for or more, and the device's blocks land
/// whole.
fn is_due<N: Nvm>(inner: &N, since: u64, every: u64) -> bool
    ensures { result ≡ due_by (N.device inner.now) since every }
{
    inner.lands_whole() && since >= every
}

/// The lines are a device, over every inner device that keeps the laws of devices: through cuts, and after a failure of
/// any call of the inner one, in the middle of a move too. A call that failed leaves registers and counts, and a fit that
/// failed is one that failed of the inner device.
impl<N: Nvm> Nvm for Gap<N> {
    ghost use Rattle.thy_gap.specs.Levelled.{shown};

    ghost device = { shown N.device };

    fn fit(&mut self, alloc: Global, shape: &Shape, start: Vec<Block>) -> Result<(), FitError>
        requires blocks { 0 < shape.now.blocks }
        requires queue { 0 < shape.now.queue }
        requires start { length start.items ≤ shape.now.blocks }
        ensures ok { OnOk result (shown N.device self.new ≡ fitted shape.now start.items (shown N.device self.old)) }
        ensures inner { OnOk result (N.device self.new.inner ≡ inner_fitted shape.now start.items (N.device self.old.inner)) }
        ensures fitted { OnOk result (HasFitted shape.now.blocks self.old self.new) }
        ensures stays { OnErr result (IsOver self.old self.new) }
        ensures err { IfErr result (λ e. HasFailedToFit e (shown N.device self.old) (shown N.device self.new)) }
        ensures inner_err { IfErr result (λ e. HasFailedToFit e (N.device self.old.inner) (N.device self.new.inner)) }
    {
        let Some(blocks) = shape.blocks.checked_add(2) else {
            return Err(FitError::Memory(AllocError));
        };
        if shape.cuts.checked_add(1).is_none() {
            return Err(FitError::Memory(AllocError));
        }
        let image = match first_blocks(start, shape.blocks) {
            Ok(image) => image,
            Err(error) => return Err(FitError::Memory(error)),
        };
        let inner_shape = Shape {
            blocks,
            queue: shape.queue,
            cuts: shape.cuts,
        };
        if let Err(error) = self.inner.fit(alloc, &inner_shape, image) {
            return Err(error);
        }
        self.registers = Registers::unmoved(shape.blocks);
        self.since = 0;
        self.moves = 0;
        self.cuts = 0;
        Ok(())
    }

    fn queued(&self) -> u64 {
        if self.registers.lines == 0 {
            0
        } else {
            self.inner.queued()
        }
    }

    fn lands_whole(&self) -> bool {
        self.inner.lands_whole()
    }

    fn writes(&self) -> u64 {
        self.inner.writes()
    }

    fn read(&mut self, at: u64) -> Result<Block, NvmError>
        requires place { at < length (shown N.device self.old).image }
        requires up { (shown N.device self.old).down ≡ false }
        ensures ok { IfOk result (λ block. block ≡ newest (shown N.device self.old) at) }
        ensures same { OnOk result (shown N.device self.new ≡ shown N.device self.old) }
        ensures err { OnErr result (HasFailed (shown N.device self.old) (shown N.device self.new)) }
        ensures frame { IsFramed (shown N.device self.old) (shown N.device self.new) }
        ensures cause { CountsFault result (shown N.device self.old).faults (shown N.device self.new).faults }
        ensures stays { IsOver self.old self.new }
    {
        self.inner.read(self.registers.place(at))
    }

    fn write(&mut self, at: u64, block: &Block) -> Result<(), NvmError>
        requires place { at < length (shown N.device self.old).image }
        requires up { (shown N.device self.old).down ≡ false }
        ensures ok { OnOk result (shown N.device self.new ≡ written_to (shown N.device self.old) at block.now) }
        ensures err { OnErr result (HasFailedToWrite at block.now (shown N.device self.old) (shown N.device self.new)) }
        ensures frame { IsFramed (shown N.device self.old) (shown N.device self.new) }
        ensures cause { CountsFault result (shown N.device self.old).faults (shown N.device self.new).faults }
        ensures since { MatchResult result (λ _. self.new.since ≡ next self.old.since) (λ _. self.new.since ≡ self.old.since) }
        ensures registers { HasWritten self.new.since self.old self.new }
    {
        self.inner.write(self.registers.place(at), block)?;
        self.since = self.since.saturating_add(1);
        Ok(())
    }

    fn drain(&mut self) -> Result<(), NvmError>
        requires queued { 0 < length (shown N.device self.old).queue }
        requires up { (shown N.device self.old).down ≡ false }
        ensures ok { OnOk result (shown N.device self.new ≡ drained (shown N.device self.old)) }
        ensures err { OnErr result (HasFailed (shown N.device self.old) (shown N.device self.new)) }
        ensures frame { IsFramed (shown N.device self.old) (shown N.device self.new) }
        ensures cause { CountsFault result (shown N.device self.old).faults (shown N.device self.new).faults }
        ensures stays { IsOver self.old self.new }
    {
        self.inner.drain()
    }

    /// Lets every queued write land, and then moves a line, exactly if `every` writes or more were made since the last
    /// move that succeeded or that a cut completed, or the fit, and the inner device's blocks land whole.
    fn barrier(&mut self) -> Result<(), NvmError>
        requires { (shown N.device self.old).down ≡ false }
        ensures ok { OnOk result (IsSettled (shown N.device self.old) (shown N.device self.new)) }
        ensures err { OnErr result (HasFailedToSettle (shown N.device self.old) (shown N.device self.new)) }
        ensures frame { IsFramed (shown N.device self.old) (shown N.device self.new) }
        ensures cause { CountsFault result (shown N.device self.old).faults (shown N.device self.new).faults }
        ensures moves { OnOk result (HasMovedIfDue (due_by (N.device self.old.inner) self.old.since self.old.every) self.old self.new) }
        ensures inner { let n = N.device self.old.inner in let m = N.device self.new.inner in
            OnOk result (m ≡ with_counts_of m (settled_and_moved self.old n)) }
        ensures stays { OnErr result (IsOver self.old self.new) }
    {
        // A count that can be read fits its type, so that it grows where it is said to.
        let _ = self.inner.writes();
        self.inner.barrier()?;
        let due = is_due(&self.inner, self.since, self.every);
        if !due {
            return Ok(());
        }
        move_line(&mut self.inner, &self.registers)?;
        self.registers = self.registers.moved();
        self.since = 0;
        self.moves = self.moves.saturating_add(1);
        Ok(())
    }

    /// The registers become the ones in the image that is left: they are unchanged, unless the cut completes a move
    /// that failed. After such a move the count of writes begins again at 0.
    fn cut(&mut self, pick: u64)
        requires { length (shown N.device self.old).left < (shown N.device self.old).left_room }
        ensures cut { IsCut pick (shown N.device self.old) (shown N.device self.new) }
        ensures inner { IsCut pick (N.device self.old.inner) (N.device self.new.inner) }
        ensures registers { HasCut (N.device self.new.inner).image self.old self.new }
    {
        self.inner.cut(pick);
        let registers = registers_kept(&self.inner, self.registers.lines, self.cuts);
        self.since = counted_on(self.registers, registers, self.since);
        self.moves = moves_on(self.registers, registers, self.moves);
        self.registers = registers;
        self.cuts += 1;
    }

    fn kept(&self, i: u64, at: u64) -> Block {
        let registers = registers_kept(&self.inner, self.registers.lines, i);
        self.inner.kept(i, registers.place(at))
    }
}
