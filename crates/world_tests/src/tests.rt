// The tests, by what they try.
mod link;
mod world;
