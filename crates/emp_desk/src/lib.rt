//! Files and output: what the program reads and writes through, and two desks in memory.
#![tactic(auto)]

mod call_log;
pub mod desk;
mod memory;
pub mod memory_desk;
pub mod steady_desk;
