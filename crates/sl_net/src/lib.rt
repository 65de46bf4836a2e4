// Topology: the parts of a net, its actors and links in order, and the plain types of an input.
#![tactic(auto)]

mod choice_of_text;
mod choices;
mod input;
mod laws;
mod matching;
mod names;
mod net;
mod spelling_laws;
mod text_of_choice;

pub use choice_of_text::find_choice;
pub use choices::{choice_from, choices_of};
pub use input::{Drop1, Flow, Input, LossSpec, Packet, RawPart, Script1, Snapshot};
pub use laws::{nets_are_wired, nets_have_ways};
pub use names::nets_have_names;
pub use net::Net;
pub use sl_layout::{ActorId, LinkKind, LinkPart, Side, Sort, UnitId};
pub use sl_parts::{
    Bytes, CablePart, DevicePart, HostPart, Line, Name, NetFault, Parts, Place, PortRef,
    plain_number, plain_numbers, push_if,
};
pub use spelling_laws::one_spelling;
pub use text_of_choice::choice_text;
