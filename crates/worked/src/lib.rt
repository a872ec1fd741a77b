// The store's changes on the cases that docs/RULES.md works by hand, and at the edge of each refusal. These tests stand in a
// crate of their own, since a crate with tests is proved twice; it has nothing else.
#![tactic(auto)]

#[cfg(test)]
mod tests;
