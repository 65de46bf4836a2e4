// Tests of the machines of units, control planes, hosts and the observer, each alone, turn by
// turn.
#![tactic(auto)]

#[cfg(test)]
mod tests;
