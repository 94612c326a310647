//! Tests of what no call shows, one module a layer: numbers, squares, and searches over row systems. They call public functions alone.
#![tactic(auto)]

#[cfg(test)]
mod convexity;
#[cfg(test)]
mod numbers;
#[cfg(test)]
mod pivots;
#[cfg(test)]
mod points;
#[cfg(test)]
mod systems;
