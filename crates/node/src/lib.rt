// The node of the clock on byte buffers: its image, and the calls boot, deliver and read.
#![tactic(auto)]

pub mod answer;
pub mod calls;
pub mod image;
pub mod layout;
