// Messages once more.
ghost use Rattle.std.specs.Prelude.{◌≡◌, [], ◌∷◌, ◌++◌, cond, IfOk, OnOk};

use sl_machine::Memory;
use sl_model::Message;
use sl_net::Bytes;
use std::alloc::Global;

/// The same bytes once more.
pub fn copy_bytes(alloc: Global, bytes: &Bytes) -> Result<Bytes, Memory>
    ensures { IfOk result (λ copy. copy ≡ bytes.now) }
{
    Ok(Bytes {
        items: Vec::from_slice(alloc, &bytes.items)?,
    })
}

/// The same message once more.
pub fn copy_message(alloc: Global, message: &Message) -> Result<Message, Memory>
    ensures { IfOk result (λ copy. copy ≡ message.now) }
{
    match message {
        Message::Host(bytes) => Ok(Message::Host(copy_bytes(alloc, bytes)?)),
        Message::Data(stamp, packet) => Ok(Message::Data(*stamp, *packet)),
        Message::Probe(stamp) => Ok(Message::Probe(*stamp)),
        Message::Init(stamp) => Ok(Message::Init(*stamp)),
        Message::Poll => Ok(Message::Poll),
        Message::Notice => Ok(Message::Notice),
        Message::Dump(count) => Ok(Message::Dump(*count)),
        Message::Begin(number) => Ok(Message::Begin(*number)),
        Message::Done(unit, count) => Ok(Message::Done(*unit, *count)),
    }
}

/// Adds the same message once more where this passes.
pub fn add_copy_if(
    alloc: Global,
    messages: &mut Vec<Message>,
    passes: bool,
    message: &Message,
) -> Result<(), Memory>
    ensures { OnOk result
        (messages.new.items ≡ messages.old.items ++ cond passes (message.now ∷ []) []) }
{
    if passes {
        messages.push(copy_message(alloc, message)?)?;
    }
    Ok(())
}
