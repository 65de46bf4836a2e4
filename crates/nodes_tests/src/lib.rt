// Tests of calls between the machines and the top call: scripts, settling, a trace, a world of nodes,
// actors of nodes in one thread, and values.
#![tactic(auto)]

#[cfg(test)]
mod actors;
#[cfg(test)]
mod calls;
#[cfg(test)]
mod in_flight;
#[cfg(test)]
mod values;
