// The store on bad input and odd contents, through its public calls alone. These tests stand in a crate of their own, since
// a crate with tests is proved twice; it has nothing else.
#![tactic(auto)]

#[cfg(test)]
mod tests;
