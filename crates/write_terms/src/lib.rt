// How terms are spelled in full, and the lines of their declarations, definitions and assertions.
#![tactic(auto)]

pub mod applications;
pub mod arguments;
pub mod definitions;
pub mod lines;
pub mod values;
