// A term that is new to the table, after its type and its children: entered, declared, defined or refused.
#![tactic(auto)]

pub mod applications;
pub mod attributes;
pub mod entities;
mod steps;
pub mod terms;
pub mod texts;
