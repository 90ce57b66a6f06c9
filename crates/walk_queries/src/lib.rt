// What the encoder asks of types and terms: the places of texts in their lists, attributes, members, and what becomes of a `Bvnego`.
#![tactic(auto)]

pub mod lists;
pub mod positions;
pub mod queries;
