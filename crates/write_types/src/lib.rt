// How types and functions are spelled and declared, by the numbers of their records.
#![tactic(auto)]

pub mod comments;
pub mod datatype_comments;
pub mod datatypes;
pub mod functions;
pub mod lines;
pub mod records;
pub mod sorts;
