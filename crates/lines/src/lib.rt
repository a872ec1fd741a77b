// What a chip is and holds, line by line: its sizes and power, a record's data, and a line for each chunk. It touches only
// the text that it adds to, and the chip by its sizes, looks and fetches.
#![tactic(auto)]

pub mod bytes;
pub mod chunks;
pub mod heads;
