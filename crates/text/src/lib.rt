// What programs print and read: an output written piece by piece, numbers in decimal digits, and inputs read into a buffer.
#![tactic(auto)]

pub mod decimal;
pub mod input;
pub mod page;
pub mod put;
