//! Tests of what needs a desk of their own: calls of the desk that fail, texts that are cut, and both desks in memory.
#![tactic(auto)]

#[cfg(test)]
mod desks;
#[cfg(test)]
mod devices;
#[cfg(test)]
mod texts;
