// Logs: reader and writer of a log, and the player that makes its listing.
#![tactic(auto)]

pub mod file;
mod line;
pub mod player;
pub mod refusal;
