// One message on each of some links.
ghost use Rattle.std.specs.Prelude.{◌≡◌, ◌++◌, ◌<◌, length, OnOk};
ghost use Rattle.sl_layout.specs.Net.{links_out};
ghost use Rattle.sl_model.specs.Puts.{send_all};

use crate::message::copy_message;
use crate::wires::links_out;
use sl_machine::Memory;
use sl_model::{Message, Put};
use sl_net::{Net, Sort};
use std::alloc::Global;

/// Adds a message on each of some links.
pub fn add_sends(
    alloc: Global,
    puts: &mut Vec<Put>,
    message: &Message,
    links: &[u32],
) -> Result<(), Memory>
    ensures { OnOk result (puts.new.items ≡ puts.old.items ++ send_all message.now links.now) }
{
    for link in links {
        let message = copy_message(alloc, message)?;
        puts.push(Put {
            link: *link,
            message,
        })?;
    }
    Ok(())
}

/// An actor of a net that puts messages, with the memory for them.
#[derive(Clone, Copy)]
pub struct Putter<'a> {
    pub alloc: Global,
    pub net: &'a Net,
    pub actor: u32,
}

/// Adds a message on each link of a sort on which an actor puts.
pub fn add_out(
    by: &Putter<'_>,
    puts: &mut Vec<Put>,
    sort: Sort,
    message: &Message,
) -> Result<(), Memory>
    requires { by.now.actor < length by.now.net.now.actors }
    ensures { OnOk result
        (puts.new.items ≡ puts.old.items
        ++ send_all message.now (links_out by.now.net.now by.now.actor sort)) }
{
    let links = links_out(by.alloc, by.net, by.actor, sort)?;
    add_sends(by.alloc, puts, message, &links)
}
