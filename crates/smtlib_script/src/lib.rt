// The commands of an SMT-LIB script: their lines, which the encoder writes into its script, and the public functions, which test their
// texts and finish the buffer.
#![tactic(auto)]

pub mod command;
pub mod commands;
pub mod line;
pub mod list;
