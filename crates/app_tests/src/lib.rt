// Tests of the top call, of the words of the command line, and of the command `run` where two actors
// meet.
#![tactic(auto)]

#[cfg(test)]
mod app;
#[cfg(test)]
mod inputs;
#[cfg(test)]
mod meeting;
#[cfg(test)]
mod runs;
#[cfg(test)]
mod samples;
#[cfg(test)]
mod short;
#[cfg(test)]
mod streams;
#[cfg(test)]
mod words;
