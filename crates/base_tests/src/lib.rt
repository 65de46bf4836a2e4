// Tests of the lists of puts, wrapped ids, streams, saved entries, frames and losses, by what their
// crates make public.
#![tactic(auto)]

#[cfg(test)]
mod tests;
