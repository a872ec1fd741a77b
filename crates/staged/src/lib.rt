// The tests of `scripts` and `replays`. They stand in a crate of their own, since a crate with tests is proved twice; it
// touches nothing.
#![tactic(auto)]

#[cfg(test)]
mod tests;
