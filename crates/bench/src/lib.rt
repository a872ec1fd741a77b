// The bench chip: a flash chip in memory whose supply fails at one act that the caller plans.
// It owns the rows that it is made of and touches nothing else.
#![tactic(auto)]

pub mod benches;
pub mod calls;
pub mod laws;
pub mod making;
pub mod plans;
mod rows;

pub use benches::BenchChip;
pub use plans::Plan;

#[cfg(test)]
mod tests;
