mod cases;
mod chips;
mod making;
mod refusals;
mod tickets;
