// The tests, by what they try.
mod ids;
mod io;
mod loss;
mod outputs;
mod saves;
mod wire;
