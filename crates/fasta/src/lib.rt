// FASTA in, a table of records out: the input comes in parts of any size, and each step writes at most one row.
#![tactic(auto)]

pub mod feeds;
mod letters;
mod lines;
pub mod reader;
mod report;
mod states;
