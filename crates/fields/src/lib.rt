// Big-endian numbers in lent bytes: the bottom layer, which every layout of document 01 stands on.
#![tactic(auto)]

pub mod field;
pub mod kind;
