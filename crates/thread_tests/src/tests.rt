// The tests, by what they try.
mod gates;
mod machines;
mod ring;
mod runs;
