// The frames that a host sends.
ghost use Rattle.std.specs.Prelude.{◌≡◌, ◌++◌, ◌∷◌, [], ◌==◌, IfOk, OnOk, cond, length, min};
ghost use Rattle.std.specs.Prelude.{option_map, slice_get};
ghost use Rattle.sl_wire.specs.Carried.{carrying};
ghost use Rattle.sl_host.specs.Host.{messages, raws_of};

use sl_flow::Share;
use sl_net::{Bytes, RawPart};
use sl_wire::{Framed, Msg};
use std::alloc::{AllocError, Global};

/// A copy of a frame.
fn copy_of(alloc: Global, bytes: &Bytes) -> Result<Bytes, AllocError>
    ensures { IfOk result (λ copy. copy ≡ bytes.now) }
{
    let items = Vec::from_slice(alloc, &bytes.items)?;
    Ok(Bytes { items })
}

/// The message with a copy of a frame. One of 24 bytes takes no memory.
fn copied(alloc: Global, bytes: &Bytes) -> Result<Msg, AllocError>
    ensures { IfOk result (λ message. message ≡ carrying bytes.now) }
{
    if bytes.items.len() != 24 {
        return Ok(Msg::Wire(copy_of(alloc, bytes)?));
    }
    Ok(Msg::Frame(Framed::new(bytes.items.as_slice())))
}

/// Adds a copy of a raw frame where it is this host's.
fn add_raw(frames: &mut Vec<Bytes>, raw: &RawPart, host: u32) -> Result<(), AllocError>
    ensures { OnOk result
        (frames.new.items ≡ frames.old.items ++ cond (raw.now.from == host)
        (raw.now.bytes ∷ []) []) }
{
    if raw.from == host {
        let alloc = *frames.allocator();
        frames.push(copy_of(alloc, &raw.bytes)?)?;
    }
    Ok(())
}

/// The raw frames of a host in input order.
#[tactic(auto, using(crate::proofs::Raws::raws_more))]
pub fn raws_of(alloc: Global, raws: &[RawPart], host: u32) -> Result<Vec<Bytes>, AllocError>
    ensures { IfOk result (λ frames. frames.items ≡ raws_of raws.now host) }
{
    let mut frames = Vec::new(alloc);
    for raw in raws {
        add_raw(&mut frames, raw, host)?;
    }
    Ok(frames)
}

/// The message with the frame at a place, where there is one: the packets come first, then the raw
/// frames. As many packets are sent as come before the place.
#[tactic(auto, using(crate::proofs::Places::packet_is_next, crate::proofs::Places::past_packets, crate::proofs::Places::raw_is_next))]
pub fn message_at(
    alloc: Global,
    share: &Share,
    raws: &[Bytes],
    place: u64,
) -> Result<Option<Msg>, AllocError>
    requires { share.now.sent ≡ min place (length share.now.packets) }
    ensures { IfOk result
        (λ message. message ≡ option_map carrying
        (slice_get (messages share.now.packets raws.now) place)) }
{
    if let Some(packet) = share.next() {
        return Ok(Some(Msg::Frame(Framed::plain(&packet))));
    }
    let place = (place - share.count()) as usize;
    if place < raws.len() {
        return Ok(Some(copied(alloc, &raws[place])?));
    }
    Ok(None)
}
