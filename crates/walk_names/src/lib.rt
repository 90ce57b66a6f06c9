// The names that the encoder has given, in working memory, and how far its walk has come.
#![tactic(auto)]

pub mod naming;
pub mod walk;
