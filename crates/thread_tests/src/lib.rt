// Tests of many actors: in threads of their own, in few threads, and in one.
#![tactic(auto)]

mod passer;
#[cfg(test)]
mod tests;
