// How terms are spelled where they are used: symbols, extension values, literals, members and names.
#![tactic(auto)]

pub mod atoms;
pub mod parts;
pub mod symbols;
pub mod values;
