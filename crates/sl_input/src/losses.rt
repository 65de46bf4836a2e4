// The losses of an input's links.
ghost use Rattle.std.specs.Prelude.{◌≡◌, [], ◌∷◌, ◌++◌, ◌==◌, ◌<◌, length, map, filter, IfOk, OnOk};
ghost use Rattle.sl_loss.specs.Loss.{loses_next, after_put};
ghost use Rattle.sl_model.specs.Losses.{drops_on, loss_on};

use sl_loss::Loss;
use sl_machine::Memory;
use sl_net::{Drop1, Input, LossSpec};
use std::alloc::Global;

fn add_drop(numbers: &mut Vec<u64>, drop: Drop1, link: u32) -> Result<(), Memory>
    ensures { OnOk result
        (numbers.new.items ≡ numbers.old.items ++ map (λ d. d.n)
        (filter (λ d. d.link == link) (drop ∷ []))) }
{
    if drop.link == link {
        numbers.push(drop.n)?;
    }
    Ok(())
}

/// The numbers of a link's puts that are listed.
fn drops_on(alloc: Global, loss: &LossSpec, link: u32) -> Result<Vec<u64>, Memory>
    ensures { IfOk result (λ numbers. numbers.items ≡ drops_on loss.now link) }
{
    let mut numbers = Vec::new(alloc);
    for drop in &loss.drops {
        add_drop(&mut numbers, *drop, link)?;
    }
    Ok(numbers)
}

/// The loss of a link whose listed numbers are these, before any put, or none where it is reliable.
pub fn loss_with(
    alloc: Global,
    input: &Input,
    link: u32,
    drops: &[u64],
) -> Result<Option<Loss>, Memory>
    requires link { link < length input.now.net.links }
    requires drops { drops.now ≡ drops_on input.now.loss link }
    ensures { IfOk result (λ loss. loss ≡ loss_on input.now link) }
{
    let kind = input.net.kind(link);
    if !kind.is_lossy() {
        return Ok(None);
    }
    let rate = input.loss.rate_of(kind);
    Ok(Some(Loss::new(alloc, input.loss.seed, link as u64, rate, drops)?))
}

/// The loss of a link before any put, or none where it is reliable.
pub fn loss_on(alloc: Global, input: &Input, link: u32) -> Result<Option<Loss>, Memory>
    requires { link < length input.now.net.links }
    ensures { IfOk result (λ loss. loss ≡ loss_on input.now link) }
{
    let drops = drops_on(alloc, &input.loss, link)?;
    loss_with(alloc, input, link, drops.as_slice())
}

/// Whether the next put on a link with this loss is lost.
pub fn loses_next(loss: &mut Option<Loss>) -> bool
    ensures lost { result ≡ loses_next loss.old }
    ensures after { loss.new ≡ after_put loss.old }
{
    match loss {
        Some(loss) => loss.next(),
        None => false,
    }
}
