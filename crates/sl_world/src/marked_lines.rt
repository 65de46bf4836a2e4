// All links by their numbers, and marks of those that have a message.
ghost use Rattle.std.specs.Prelude.{◌≡◌, ◌≢◌, ◌+◌, ◌^◌, ◌<◌, ◌≤◌, ◌↔◌, ◌∷◌, ℕ, []};
ghost use Rattle.std.specs.Prelude.{IsTrue, IfOk, OnOk, length};
ghost use Rattle.std.specs.Prelude.{drop, slice_set};
ghost use Rattle.sl_world.specs.Scene.{line_at, put_at, without_first};
ghost use Rattle.sl_world.specs.Mesh.{lines_of, room_at, KeepsSomeRoom};
ghost use Rattle.sl_world.specs.Marks.{IsMarked};

use crate::line::Line;
use crate::marks::Marks;
use sl_machine::Memory;
use std::alloc::Global;
use std::marker::Model;

/// The links. Those with a message are marked, so that many links are looked at fast. The mark past
/// the last link stands for actions and is always set.
#[derive(Drop)]
pub struct MarkedLines<M> {
    lines: Vec<Line<M>>,
    filled: Marks,
}

impl<M> Model for MarkedLines<M> {
    ghost use Rattle.std.specs.Prelude.{List};
    ghost use Rattle.sl_world.specs.LineView.{LineView};
    ghost use Rattle.sl_world.specs.Marks.{IsMarked};

    ghost Value = { List (LineView M) };

    ghost view = { λ a. a.lines.items };

    ghost invariant = { λ a. IsMarked a.lines.items a.filled };
}

impl<M: Drop> MarkedLines<M> {
    /// The links of a list.
    pub fn new(alloc: Global, lines: Vec<Line<M>>) -> Result<MarkedLines<M>, Memory>
        ensures { IfOk result (λ l. l ≡ lines.items) }
    {
        let filled = mark_lines(alloc, lines.as_slice())?;
        Ok(MarkedLines { lines, filled })
    }

    /// Whether nothing is on a link.
    pub fn is_empty(&self, link: usize) -> bool
        requires { link < length self.now }
        ensures { IsTrue result ↔ ((line_at (lines_of self.now) link).queue ≡ []) }
    {
        self.lines[link].is_empty()
    }

    /// The first link with a message from one on, or the place past the last link, which stands for
    /// actions. Where none of these is below another place, it is some place from that on.
    #[inline(always)]
    pub fn next(&self, from: usize, end: usize) -> usize
        requires within { end ≤ length self.now + 1 }
        requires small { end < 2 ^ 40 }
        ensures from { from ≤ result }
        ensures none { (k : ℕ) → from ≤ k → k < result → k < end
            → (k < length self.now) × ((line_at (lines_of self.now) k).queue ≡ []) }
        ensures some { result < end → result < length self.now
            → (line_at (lines_of self.now) result).queue ≢ [] }
    {
        self.filled.next(from, end)
    }

    /// How many puts a link has lost.
    pub fn lost(&self, link: usize) -> u64
        requires { link < length self.now }
        ensures { result ≡ (line_at (lines_of self.now) link).lost }
    {
        self.lines[link].lost()
    }

    /// Makes room for one more message on a link.
    pub fn make_room(&mut self, link: usize) -> Result<(), Memory>
        requires { link < length self.old }
        ensures lines { lines_of self.new ≡ lines_of self.old }
        ensures keeps { KeepsSomeRoom self.old self.new }
        ensures room { OnOk result (0 < room_at self.new link) }
    {
        self.lines[link].make_room()
    }

    /// Puts a message on a link, and answers whether it has room for one more.
    #[inline(always)]
    pub fn put(&mut self, link: usize, m: M) -> bool
        requires link { link < length self.old }
        requires room { 0 < room_at self.old link }
        ensures lines { lines_of self.new ≡ put_at (lines_of self.old) link m }
        ensures others { (k : ℕ) → k ≢ link → room_at self.new k ≡ room_at self.old k }
        ensures room { IsTrue result → 0 < room_at self.new link }
    {
        let line = &mut self.lines[link];
        let has_room = line.put(m);
        if !line.is_empty() {
            self.filled.write(link, true);
        }
        has_room
    }

    /// Takes the first message of a link.
    #[inline(always)]
    pub fn take(&mut self, link: usize) -> M
        requires link { link < length self.old }
        requires some { (line_at (lines_of self.old) link).queue ≢ [] }
        ensures first { (line_at (lines_of self.old) link).queue
            ≡ result ∷ drop 1 (line_at (lines_of self.old) link).queue }
        ensures rest { let line = line_at (lines_of self.old) link in
            lines_of self.new ≡ slice_set (lines_of self.old) link
            (without_first line (drop 1 line.queue)) }
        ensures keeps { KeepsSomeRoom self.old self.new }
    {
        let line = &mut self.lines[link];
        let m = line.take();
        if line.is_empty() {
            self.filled.write(link, false);
        }
        m
    }
}

/// Marks the links with a message, and the place past the last.
fn mark_lines<M: Drop>(alloc: Global, lines: &[Line<M>]) -> Result<Marks, Memory>
    ensures { IfOk result (λ filled. IsMarked lines.now filled) }
{
    let mut filled = Marks::new(alloc, lines.len())?;
    for link in 0..lines.len() {
        filled.write(link, !lines[link].is_empty());
    }
    filled.write(lines.len(), true);
    Ok(filled)
}
