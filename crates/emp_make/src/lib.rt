//! Generated markets.
//!
//! What a market is stands in `specs/Markets.antt`. The numbers of its firms are drawn from a seed (`draws`), a model and an
//! annotation are made of them (`model`, `annot`), and `market` has the call.
#![tactic(auto)]

pub mod annot;
pub mod draws;
pub mod fault;
pub mod laws;
pub mod market;
pub mod model;
