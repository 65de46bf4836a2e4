// The parts of a network as they are given: names, numbers, devices, cables and hosts, what each port
// leads to, and the first reason why parts make no network.
#![tactic(auto)]

mod checking;
mod fault;
mod name;
mod number;
mod numbers;
mod parts;
mod ports;
mod table;
mod text;

pub use checking::check;
pub use fault::{NetFault, Place};
pub use number::{plain_number, plain_numbers};
pub use numbers::{Numbers, empty_lists, push_if, row};
pub use parts::{CablePart, DevicePart, HostPart, Parts, PortRef};
pub use ports::{PortTable, slot_of};
pub use table::filled;
pub use text::{Bytes, Line, Name};
