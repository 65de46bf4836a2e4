// The messages that a unit puts.
ghost use Rattle.std.specs.Prelude.{◌≡◌, ◌+◌, ◌≤◌, ◌<◌, ◌^◌, ◌++◌, ◌∷◌, [], length, cond, true};
ghost use Rattle.std.specs.List.{All};
ghost use Rattle.sl_wire.specs.declared.message.Msg.TheVariants.{Dump as DumpMsg};
ghost use Rattle.sl_unit.specs.Wires.{outs};
ghost use Rattle.sl_machine.specs.Machine.{send_all};
ghost use Rattle.sl_unit.specs.Notes.{message_of};
ghost use Rattle.sl_wire.specs.declared.message.Dump.{Dump};

use crate::wires::{Way, Wires};
use sl_machine::Outputs;
use sl_net::Sort;
use sl_wire::{Boxed, Dump, Framed, Msg};

/// A message that can go on several links.
#[derive(Drop)]
pub enum Note {
    /// A frame.
    Frame(Framed),
    /// A notice.
    Notice,
}

impl Note {
    fn message(&self) -> Msg
        ensures { result ≡ message_of self.now }
    {
        match self {
            Note::Frame(frame) => Msg::Frame(frame.again()),
            Note::Notice => Msg::Notice,
        }
    }
}

/// Puts the message on an outgoing link where it goes there.
fn put_if(out: &mut Outputs<Msg>, goes: bool, link: u32, note: &Note)
    requires room { goes ≡ true → length out.old.items < out.old.room }
    ensures items { out.new.items ≡ out.old.items ++ cond goes
        ((link, message_of note.now) ∷ []) [] }
    ensures room { out.new.room ≡ out.old.room }
{
    if goes {
        out.put(link, note.message());
    }
}

/// Puts the message on each outgoing link of a way. Most callers know the way.
#[inline(always)]
pub fn put_on(wires: &Wires, way: Way, note: &Note, out: &mut Outputs<Msg>)
    requires room { length out.old.items + length (outs way wires.now.exits) ≤ out.old.room }
    ensures items { out.new.items ≡ out.old.items ++ send_all (message_of note.now)
        (outs way wires.now.exits) }
    ensures room { out.new.room ≡ out.old.room }
{
    let span = wires.span(way);
    for i in span.from..span.end {
        put_if(out, wires.goes(way, span, i), i, note);
    }
}

/// Puts the last of some dumps on an outgoing link where it goes there.
fn put_dump_if(out: &mut Outputs<Msg>, goes: bool, link: u32, dumps: &mut Vec<Boxed<Dump>>)
    requires room { goes ≡ true → length out.old.items < out.old.room }
    requires some { goes ≡ true → 0 < length dumps.old.items }
    ensures items { (dump : Dump) → All (λ d. d ≡ dump) dumps.old.items
        → out.new.items ≡ out.old.items ++ cond goes ((link, DumpMsg dump) ∷ []) [] }
    ensures room { out.new.room ≡ out.old.room }
    ensures many { length out.new.items ≡ length out.old.items + cond goes 1 0 }
    ensures left { length dumps.new.items + cond goes 1 0 ≡ length dumps.old.items }
    ensures still { (dump : Dump) → All (λ d. d ≡ dump) dumps.old.items
        → All (λ d. d ≡ dump) dumps.new.items }
{
    if goes {
        if let Some(dump) = dumps.pop() {
            out.put(link, Msg::Dump(dump));
        }
    }
}

/// Puts a dump, of some that are the same, on each link of dumps.
pub fn put_dumps(wires: &Wires, dumps: &mut Vec<Boxed<Dump>>, out: &mut Outputs<Msg>)
    requires room { length out.old.items + length (outs (Way.All Sort.Dump) wires.now.exits)
        ≤ out.old.room }
    requires dumps { length dumps.old.items ≡ length (outs (Way.All Sort.Dump) wires.now.exits) }
    ensures items { (dump : Dump) → All (λ d. d ≡ dump) dumps.old.items
        → out.new.items ≡ out.old.items ++ send_all (DumpMsg dump)
        (outs (Way.All Sort.Dump) wires.now.exits) }
    ensures room { out.new.room ≡ out.old.room }
{
    let way = Way::All(Sort::Dump);
    let span = wires.span(way);
    for i in span.from..span.end {
        put_dump_if(out, wires.goes(way, span, i), i, dumps);
    }
}
