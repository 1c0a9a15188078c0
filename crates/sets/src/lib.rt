// Sets of ticks by value: what is held from one sender. They know nothing of rows or nodes: the window's width is a parameter of
// every function.
#![tactic(auto)]

pub mod mask;
pub mod ticks;
