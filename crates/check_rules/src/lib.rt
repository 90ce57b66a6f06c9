// The rules of a record by its body, and the references of a set that repeat.
#![tactic(auto)]

pub mod ascending;
pub mod distinct;
pub mod members;
pub mod record;
pub mod repeats;
pub mod terms;
