// The tests, by what they try.
mod flow;
mod net;
mod plan;
mod report;
mod route;
