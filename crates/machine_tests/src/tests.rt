// The tests, by what they try.
mod control;
mod host;
mod messages;
mod nets;
mod observe;
mod rig;
mod unit;
