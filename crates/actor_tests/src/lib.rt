// Tests of actors, by what their crate makes public, and of the merge of what they did.
#![tactic(auto)]

#[cfg(test)]
mod actor;
#[cfg(test)]
mod merge;
#[cfg(test)]
mod rounds;
