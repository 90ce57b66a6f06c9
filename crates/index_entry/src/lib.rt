// The records of an accepted file read again, by their offsets: types, functions, enums and terms.
#![tactic(auto)]

pub mod leaves;
pub mod lists;
pub mod numbered;
pub mod numbered_terms;
pub mod parents;
pub mod records;
pub mod symbols;
pub mod terms;
pub mod types;
pub mod values;
