//! One set of a cache.
ghost use Rattle.std.specs.Prelude.{◌≡◌, ◌<◌, ◌≤◌, ◌+◌, ◌==◌, true, false, ◌++◌, [], ◌∷◌, Some, length, replicate, remove, position, is_some, is_none, IfOk, IfSome};
ghost use Rattle.std.specs.List.{range_with_len};
ghost use Rattle.std.specs.Option.{option_map};
ghost use Rattle.thy_cache.specs.Ways.{is_dirty, has_dirty, empty_ways, holds, line_at, line_in, way_of, moved_last, used, with_line, over_line, clean, changed, filled, victim_way};

use crate::line::Line;
use std::alloc::{AllocError, Global};
use std::marker::Model;
use thy_block::Block;

/// A set: a fixed number of ways, each with at most one line, and the order in which they were last used. No block has
/// two lines.
#[derive(Drop)]
pub(crate) struct WaySet {
    lines: Vec<Option<Line>>,
    order: Vec<usize>,
    /// The way that was used last, the end of the order. A block is looked for there first.
    latest: usize,
}

impl Model for WaySet {
    ghost use Rattle.thy_cache.specs.Ways.{Ways, AreSoundWays};

    ghost Value = { Ways };

    ghost view = { λ s. record { lines = s.lines.items; order = s.order.items } };

    ghost invariant = { λ s. AreSoundWays s.lines.items s.order.items s.latest };
}

/// Moves the way at a place of the order, now called `way`, to the end of the order.
fn move_last(order: &mut Vec<usize>, at: usize, way: usize)
    requires { at < length order.old.items }
    ensures { order.new.items ≡ remove order.old.items at ++ way ∷ [] }
{
    let last = order.len() - 1;
    for k in at..last {
        order[k] = order[k + 1];
    }
    order[last] = way;
}

/// Ways without lines.
fn no_lines(alloc: Global, ways: usize) -> Result<Vec<Option<Line>>, AllocError>
    ensures { IfOk result (λ lines. lines.items ≡ replicate ways None) }
{
    let mut lines = Vec::with_capacity(alloc, ways)?;
    lines.resize(ways, None)?;
    Ok(lines)
}

/// The ways from 0 on.
fn rising(alloc: Global, ways: usize) -> Result<Vec<usize>, AllocError>
    ensures { IfOk result (λ order. order.items ≡ range_with_len 0 ways) }
{
    let mut order = Vec::with_capacity(alloc, ways)?;
    for way in 0..ways {
        order.push(way)?;
    }
    Ok(order)
}

impl WaySet {
    /// A set of `ways` ways, none of which has a line. Fails if memory runs out.
    pub(crate) fn new(alloc: Global, ways: usize) -> Result<WaySet, AllocError>
        requires { 0 < ways }
        ensures { IfOk result (λ set. set ≡ empty_ways ways) }
    {
        let lines = no_lines(alloc, ways)?;
        let order = rising(alloc, ways)?;
        Ok(WaySet {
            lines,
            order,
            latest: ways - 1,
        })
    }

    /// The way that has a line of block `b`.
    #[inline(always)]
    pub(crate) fn way_of(&self, b: u64) -> Option<usize>
        ensures { result ≡ way_of self.now b }
    {
        match self.latest_of(b) {
            Some(way) => Some(way),
            None => self.first_way_of(b),
        }
    }

    /// The way that was used last, if it has a line of block `b`.
    #[inline(always)]
    pub(crate) fn latest_of(&self, b: u64) -> Option<usize>
        ensures { IfSome result (λ way. way_of self.now b ≡ Some way) }
    {
        let here = holds(&self.lines[self.latest], b);
        if here { Some(self.latest) } else { None }
    }

    /// The first way that has a line of block `b`.
    #[inline(never)]
    fn first_way_of(&self, b: u64) -> Option<usize>
        ensures { result ≡ way_of self.now b }
    {
        self.lines
            .iter()
            .position(|way| matches!(way, Some(line) if line.at == b))
    }

    /// The number of the first way whose line is dirty, if there is one.
    pub(crate) fn dirty_way(&self) -> Option<usize>
        ensures { result ≡ position is_dirty self.now.lines }
    {
        self.lines
            .iter()
            .position(|way| matches!(way, Some(line) if line.dirty))
    }

    /// Whether some line is dirty.
    pub(crate) fn has_dirty(&self) -> bool
        ensures { result ≡ has_dirty self.now }
    {
        self.dirty_way().is_some()
    }

    /// The lowest way without a line.
    fn empty_way(&self) -> Option<usize>
        ensures way { result ≡ position is_none self.now.lines }
        ensures inside { IfSome result (λ way. way < length self.now.lines) }
    {
        self.lines.iter().position(|way| way.is_none())
    }

    /// The way for the next line: the lowest empty one, else the least recently used.
    pub(crate) fn victim(&self) -> usize
        ensures way { result ≡ victim_way self.now }
        ensures inside { result < length self.now.lines }
    {
        match self.empty_way() {
            Some(way) => way,
            None => self.order[0],
        }
    }

    /// The line in a way, where it stands.
    #[inline(always)]
    pub(crate) fn line_ref(&self, way: usize) -> &Option<Line>
        requires { way < length self.now.lines }
        ensures { result.now ≡ line_at self.now way }
    {
        &self.lines[way]
    }

    /// The line in a way, if it has one.
    pub(crate) fn line(&self, way: usize) -> Option<Line>
        requires { way < length self.now.lines }
        ensures { result ≡ line_at self.now way }
    {
        self.lines[way]
    }

    /// The place of a way in the order.
    fn order_of(&self, way: usize) -> Option<usize>
        ensures location { result ≡ position (λ other. other == way) self.now.order }
        ensures inside { IfSome result (λ at. at < length self.now.order) }
    {
        self.order.iter().position(|other| *other == way)
    }

    /// Whether a way was the last one used.
    #[inline(always)]
    fn is_last(&self, way: usize) -> bool
        ensures { result ≡ true → moved_last way self.now.order ≡ self.now.order }
    {
        self.latest == way
    }

    /// Notes that a way was used.
    #[inline(always)]
    pub(crate) fn touch(&mut self, way: usize)
        requires { way < length self.old.lines }
        ensures { self.new ≡ used way self.old }
    {
        if !self.is_last(way) {
            self.move_last(way);
        }
    }

    /// Moves a way to the end of the order.
    #[inline(never)]
    fn move_last(&mut self, way: usize)
        requires { way < length self.old.lines }
        ensures { self.new ≡ used way self.old }
    {
        if let Some(at) = self.order_of(way) {
            move_last(&mut self.order, at, way);
            self.latest = way;
        }
    }

    /// Writes a line, whose block has none, into a way.
    fn put(&mut self, way: usize, line: Line)
        requires way { way < length self.old.lines }
        requires missing { is_some (line_in self.old line.at) ≡ false }
        ensures { self.new ≡ with_line way line self.old }
    {
        self.lines[way] = Some(line);
    }

    /// The line of block `b`, if the set has one.
    pub(crate) fn line_of(&self, b: u64) -> Option<Line>
        ensures { result ≡ line_in self.now b }
    {
        match self.way_of(b) {
            Some(way) => self.line(way),
            None => None,
        }
    }

    /// Writes bytes over the line in a way, from byte `at` on, which is a use of it.
    #[inline(always)]
    pub(crate) fn write(&mut self, way: usize, at: usize, bytes: &[u8])
        requires way { way < length self.old.lines }
        requires bytes { at + length bytes.now ≤ 64 }
        ensures { self.new ≡ over_line (changed at bytes.now) way (used way self.old) }
    {
        self.change(way, at, bytes);
        self.touch(way);
    }

    /// Writes bytes over the line in a way, from byte `at` on.
    #[inline(always)]
    fn change(&mut self, way: usize, at: usize, bytes: &[u8])
        requires way { way < length self.old.lines }
        requires bytes { at + length bytes.now ≤ 64 }
        ensures { self.new ≡ over_line (changed at bytes.now) way self.old }
    {
        write_over(&mut self.lines[way], at, bytes);
    }

    /// Notes that the store has the line in a way.
    pub(crate) fn clean(&mut self, way: usize)
        requires { way < length self.old.lines }
        ensures { self.new ≡ over_line clean way self.old }
    {
        make_clean(&mut self.lines[way]);
    }

    /// Loads block `b`, which has no line, into the way of the victim.
    pub(crate) fn fill(&mut self, b: u64, block: &Block)
        requires { is_some (line_in self.old b) ≡ false }
        ensures { self.new ≡ filled b block.now self.old }
    {
        let way = self.victim();
        self.touch(way);
        let line = Line {
            at: b,
            block: *block,
            dirty: false,
        };
        self.put(way, line);
    }
}

/// A list of `sets` sets, with `ways` ways without lines in each.
pub(crate) fn empty_sets(alloc: Global, sets: u64, ways: usize) -> Result<Vec<WaySet>, AllocError>
    requires { 0 < ways }
    ensures { IfOk result (λ all. all.items ≡ replicate sets (empty_ways ways)) }
{
    let mut all = Vec::with_capacity(alloc, sets as usize)?;
    for _set in 0..sets {
        all.push(WaySet::new(alloc, ways)?)?;
    }
    Ok(all)
}

/// Notes that the store has the line in a way, if there is one.
fn make_clean(way: &mut Option<Line>)
    ensures { way.new ≡ option_map clean way.old }
{
    match way {
        Some(line) => line.dirty = false,
        None => {}
    }
}

/// Writes bytes over the line in a way, if there is one, from byte `at` on. It is dirty then. Most stores write 8 bytes or 4:
/// these are moved as one number.
#[inline(always)]
fn write_over(way: &mut Option<Line>, at: usize, bytes: &[u8])
    requires { at + length bytes.now ≤ 64 }
    ensures { way.new ≡ option_map (changed at bytes.now) way.old }
{
    match way {
        Some(line) => {
            match bytes.len() {
                8 => line.block.put(at, &bytes[..8]),
                4 => line.block.put(at, &bytes[..4]),
                _ => line.block.put(at, bytes),
            }
            line.dirty = true;
        }
        None => {}
    }
}

/// Whether a way has a line of block `b`.
#[inline(always)]
fn holds(way: &Option<Line>, b: u64) -> bool
    ensures { result ≡ holds b way.now }
{
    matches!(way, Some(line) if line.at == b)
}
