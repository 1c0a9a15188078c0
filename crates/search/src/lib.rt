// The search for the greatest tick that enough serials hold, over rows as they lie in an image's bytes. Tops are looked at first, since
// mostly they alone tell that there is none. Then a walk goes down along them, in order, and masks are looked at only where enough
// windows cover a tick, for as many ticks at a time as a word has bits.
#![tactic(auto)]

pub mod greatest;
mod levels;
mod order;
mod question;
mod scan;
pub mod tops;
