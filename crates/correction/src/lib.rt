// The correction of request A13, for modules that count microseconds in 32 bits: by how much a counter is to be set, from readings of all
// counters of which some may be bad. A reading counts by its value and never by its place.
#![tactic(auto)]

pub mod calls;
pub mod counter;
pub mod middle;
pub mod refusal;
