// A record's body as plain bytes and references, and records compared by it, with the index for what they refer to.
#![tactic(auto)]

pub mod compare;
pub mod depth;
pub mod mark;
pub mod opening;
pub mod record;
pub mod segments;
pub mod shape;
