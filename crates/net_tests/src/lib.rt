// Tests of nets, routes, workloads and the routes' text, by the public calls of their crates.
#![tactic(auto)]

#[cfg(test)]
mod tests;
