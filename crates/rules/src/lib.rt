// The rules of Figure 1: the node by value, the records that it sends, and one delivery over rows in lent bytes.
#![tactic(auto)]

pub mod node;
pub mod record;
