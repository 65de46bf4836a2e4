// What is lost of the messages that are put on a link.
ghost use Rattle.std.specs.Prelude.{◌≡◌, ◌<◌, length, reverse, IfOk};
ghost use Rattle.sl_model.specs.History.{carried_by};
ghost use Rattle.sl_model.specs.Losses.{losses};

use crate::message::add_copy_if;
use crate::tell::put;
use sl_input::{loses_next, loss_on, losses_answer_in_order};
use sl_machine::Memory;
use sl_model::{Message, Step};
use sl_net::Input;
use std::alloc::Global;

/// The messages that a sender with these steps put on a link and that are not lost.
pub fn carried(
    alloc: Global,
    input: &Input,
    link: u32,
    steps: &[Step],
) -> Result<Vec<Message>, Memory>
    requires { link < length input.now.net.links }
    ensures { IfOk result
        (λ kept. kept.items ≡ carried_by (losses input.now) link (reverse steps.now)) }
{
    losses_answer_in_order();
    let mut loss = loss_on(alloc, input, link)?;
    let messages = put(alloc, link, steps)?;
    let mut kept = Vec::new(alloc);
    for message in &messages {
        let lost = loses_next(&mut loss);
        add_copy_if(alloc, &mut kept, !lost, message)?;
    }
    Ok(kept)
}
