// Numbers of which the least is known.
ghost use Rattle.std.specs.Prelude.{◌≡◌, ◌+◌, ◌<◌, ◌^◌, IfOk, length, drop, replicate, slice_set};
ghost use Rattle.sl_route.specs.Least.{least};
ghost use Rattle.sl_observe.specs.Floors.{IsTree};

use std::alloc::{AllocError, Global};
use std::marker::Model;

/// A list of numbers in a tree of minima: a change costs a step for each of its levels at most, and
/// the least is at hand.
#[derive(Drop)]
pub struct Floors {
    count: usize,
    tree: Vec<u64>,
}

impl Model for Floors {
    ghost use Rattle.std.specs.Prelude.{List, ℕ, drop};
    ghost use Rattle.sl_observe.specs.Floors.{IsTree};

    ghost Value = { List ℕ };

    ghost view = { λ f. drop f.count f.tree.items };

    ghost invariant = { λ f. IsTree f.count f.tree.items };
}

/// A tree of zeros.
#[tactic(auto, using(crate::proofs::Trees::zeros_are_tree, crate::proofs::Trees::zeros_are_numbers))]
fn zeros(alloc: Global, count: usize) -> Result<Vec<u64>, AllocError>
    requires { count < 2 ^ 63 }
    ensures tree { IfOk result (λ tree. IsTree count tree.items) }
    ensures leaves { IfOk result (λ tree. drop count tree.items ≡ replicate count 0) }
{
    vec![in alloc; 0; count + count]
}

/// Writes a number, and the nodes above it anew, up to the first that stays as it was.
#[tactic(auto, using(crate::proofs::Trees::right_but_above, crate::proofs::Trees::right_a_step_on))]
fn write(tree: &mut Vec<u64>, count: usize, place: usize, number: u64)
    requires tree { IsTree count tree.old.items }
    requires place { place < count }
    ensures tree { IsTree count tree.new.items }
    ensures leaves { drop count tree.new.items ≡ slice_set
        (drop count tree.old.items) place number }
{
    let mut node = count + place;
    tree[node] = number;
    while node > 1 {
        node /= 2;
        let lesser = tree[2 * node].min(tree[2 * node + 1]);
        if tree[node] == lesser {
            return;
        }
        tree[node] = lesser;
    }
}

impl Floors {
    /// This many zeros.
    pub fn zeros(alloc: Global, count: usize) -> Result<Floors, AllocError>
        requires { count < 2 ^ 63 }
        ensures { IfOk result (λ floors. floors ≡ replicate count 0) }
    {
        let tree = zeros(alloc, count)?;
        Ok(Floors { count, tree })
    }

    /// The least, where there are any.
    #[tactic(auto, using(crate::proofs::Trees::root_is_least, crate::proofs::Trees::none_is_least))]
    pub fn least(&self) -> Option<u64>
        ensures { result ≡ least self.now }
    {
        if self.count == 0 {
            None
        } else {
            Some(self.tree[1])
        }
    }

    /// Writes a number at a place.
    pub fn set(&mut self, place: usize, number: u64)
        requires { place < length self.old }
        ensures { self.new ≡ slice_set self.old place number }
    {
        write(&mut self.tree, self.count, place, number);
    }
}
