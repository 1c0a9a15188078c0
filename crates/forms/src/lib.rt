// Frames and forms of document 01: readers and writers over lent bytes. They know nothing of nodes.
#![tactic(auto)]

pub mod answer;
pub mod column;
pub mod form;
pub mod frame;
pub mod roster;
