// The converter of old images, at service: an image from before the window grew is written anew in the layout in service.
#![tactic(auto)]

pub mod calls;
mod judge;
mod rows;
