// The losses of an input's links.
ghost use Rattle.std.specs.Prelude.{◌≡◌, ℕ, ◌<◌, ◌++◌, ◌∷◌, [], None, length, map};
ghost use Rattle.std.specs.Prelude.{slice_index_or, slice_set, All, IfOk, OnOk};
ghost use Rattle.sl_parts.specs.Parts.{below};
ghost use Rattle.sl_layout.specs.Net.{link_numbers};
ghost use Rattle.sl_loss.specs.Loss.{IsFresh};
ghost use Rattle.sl_model.specs.Losses.{drops_on, loss_on, losses};
ghost use Rattle.sl_proto.specs.Image.{GoesOn};

use sl_input::loss_with;
use sl_loss::Loss;
use sl_machine::Memory;
use sl_net::{Drop1, Input, LossSpec};
use std::alloc::Global;
use std::marker::Model;

/// The listed numbers of a link's puts.
#[derive(Drop)]
struct Listed {
    numbers: Vec<u64>,
}

impl Model for Listed {
    ghost use Rattle.std.specs.Prelude.{List, ℕ};

    ghost Value = { List ℕ };

    ghost view = { λ d. d.numbers.items };
}

fn empty_lists(alloc: Global, count: usize) -> Result<Vec<Listed>, Memory>
    ensures { IfOk result (λ lists. lists.items ≡ map (λ (l : ℕ). []) (below count)) }
{
    let mut lists = Vec::new(alloc);
    for _i in 0..count {
        let list = Listed {
            numbers: Vec::new(alloc),
        };
        lists.push(list)?;
    }
    Ok(lists)
}

/// Adds a number to the list of its link; one past the last link is left out.
fn add_drop(lists: &mut Vec<Listed>, drop: Drop1) -> Result<(), Memory>
    ensures { OnOk result
        (lists.new.items ≡ slice_set lists.old.items drop.link
        (slice_index_or lists.old.items drop.link [] ++ drop.n ∷ [])) }
{
    let link = drop.link as usize;
    if link >= lists.len() {
        return Ok(());
    }
    let list = &mut lists[link];
    Ok(list.numbers.push(drop.n)?)
}

/// For each link the listed numbers of its puts.
fn drops_by_link(alloc: Global, loss: &LossSpec, count: usize) -> Result<Vec<Listed>, Memory>
    ensures { IfOk result (λ lists. lists.items ≡ map (drops_on loss.now) (below count)) }
{
    let mut lists = empty_lists(alloc, count)?;
    for drop in &loss.drops {
        add_drop(&mut lists, *drop)?;
    }
    Ok(lists)
}

fn numbers_of(lists: &[Listed], link: usize) -> &[u64]
    requires { link < length lists.now }
    ensures { result.now ≡ slice_index_or lists.now link [] }
{
    let list = &lists[link];
    list.numbers.as_slice()
}

/// The losses of an input, one for each link that is lossy, before any put. They lose what the
/// input loses.
pub fn make_losses(alloc: Global, input: &Input) -> Result<Vec<Option<Loss>>, Memory>
    ensures losses { IfOk result
        (λ v. v.items ≡ map (loss_on input.now) (link_numbers input.now.net)) }
    ensures each { IfOk result (λ v. length v.items ≡ length input.now.net.links) }
    ensures fresh { IfOk result (λ v. All IsFresh v.items) }
    ensures go { IfOk result (λ v. (l : ℕ) → l < length input.now.net.links
        → GoesOn (losses input.now l) 0 (slice_index_or v.items l None)) }
{
    let count = input.net.links().len();
    let lists = drops_by_link(alloc, &input.loss, count)?;
    let mut made = Vec::new(alloc);
    for link in 0..count {
        let drops = numbers_of(lists.as_slice(), link);
        let loss = loss_with(alloc, input, link as u32, drops)?;
        made.push(loss)?;
    }
    Ok(made)
}
