// Tests of the reader, and of what is computed from whole histories: the findings of schedules, how
// they end, their trails, and a reading by a trail.
#![tactic(auto)]

#[cfg(test)]
mod endings;
#[cfg(test)]
mod inputs;
#[cfg(test)]
mod polls;
#[cfg(test)]
mod read;
#[cfg(test)]
mod rows;
#[cfg(test)]
mod schedules;
