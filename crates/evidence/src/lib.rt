// Evidence: sets of ticks from each sender, as rows in lent bytes. It knows nothing of nodes: the window's width is a parameter of
// every function.
#![tactic(auto)]

pub mod early;
pub mod list;
pub mod rows;
