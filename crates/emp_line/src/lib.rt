//! Lines of a dictionary, and the exchange of a line's quantity with that of a column, in place and without memory.
#![tactic(auto)]

pub mod binary;
pub mod cells;
pub mod divide;
pub mod fill;
pub mod index;
pub mod laws;
pub mod line;
pub mod pairs;
pub mod row;
pub mod step;
pub mod table;
