// What goes over links: frames of 24 bytes, and messages between actors.
#![tactic(auto)]

mod boxed;
mod columns;
mod frame;
mod framed;
mod laws;
mod message;
mod reach;
mod spare;
mod wids;

pub use boxed::Boxed;
pub use frame::{Frame, Header, Kind, WireFault, decode, encode, frame_of, plain_frame};
pub use framed::Framed;
pub use laws::one_frame;
pub use message::{Done, Dump, Msg, Rows};
pub use reach::reached;
pub use spare::Spare;
pub use wids::{are_wids, has_room, have_room, is_wid};
