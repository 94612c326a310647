//! Reads model texts with matches: the model, and which equation is matched with which variable, in text order.
//!
//! What such a text stands for is in `specs/Texts.antt`, over the grammar of `gms_grammar` and the rules of `gms_read`.
#![tactic(auto)]

pub mod laws;
pub mod read;
pub mod shown;
