// A set of numbers, a bit for each.
ghost use Rattle.std.specs.Prelude.{◌≡◌, ◌≢◌, ◌*◌, ◌<◌, ◌≤◌, ◌^◌, ℕ, length, IfOk, if◌then◌else◌};
ghost use Rattle.sl_world.specs.Marks.{mark_at};

use sl_machine::Memory;
use std::alloc::Global;
use std::marker::Model;

/// A set of numbers: bit k % 64 of word k / 64 tells of k.
#[derive(Drop)]
pub struct Marks {
    words: Vec<u64>,
}

impl Model for Marks {
    ghost use Rattle.std.specs.Prelude.{ℕ, List};

    ghost Value = { List ℕ };

    ghost view = { λ a. a.words.items };
}

impl Marks {
    /// The empty set, which has room for the numbers up to this one.
    pub fn new(alloc: Global, most: usize) -> Result<Marks, Memory>
        ensures room { IfOk result (λ marks. most < 64 * length marks) }
        ensures none { IfOk result (λ marks. (k : ℕ) → mark_at marks k ≡ 0) }
    {
        let words = vec![in alloc; 0; most / 64 + 1]?;
        Ok(Marks { words })
    }

    /// Marks a number, or takes its mark away.
    #[inline(always)]
    pub fn write(&mut self, k: usize, on: bool)
        requires { k < 64 * length self.old }
        ensures same { mark_at self.new k ≡ (if on then 1 else 0) }
        ensures others { (j : ℕ) → j ≢ k → mark_at self.new j ≡ mark_at self.old j }
        ensures room { length self.new ≡ length self.old }
    {
        let word = self.words[k / 64];
        let bit = 1 << (k % 64);
        let marked = if on { word | bit } else { word & !bit };
        self.words[k / 64] = marked;
    }

    /// The first marked number from one on. Where none below another is marked, it is some number
    /// from that on.
    #[inline(always)]
    pub fn next(&self, from: usize, end: usize) -> usize
        requires room { end ≤ 64 * length self.now }
        requires small { end < 2 ^ 40 }
        ensures from { from ≤ result }
        ensures none { (k : ℕ) → from ≤ k → k < result → mark_at self.now k ≡ 0 }
        ensures some { result < end → mark_at self.now result ≡ 1 }
    {
        let mut at = from;
        while at < end {
            let ahead = self.words[at / 64] >> (at % 64);
            if ahead != 0 {
                return at + ahead.trailing_zeros() as usize;
            }
            at += 64 - at % 64;
        }
        at
    }
}
