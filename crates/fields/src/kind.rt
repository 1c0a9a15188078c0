// The two kinds of a frame by name, as specs/Kind.antt has them. Numbers and no enum: contracts above hold for every number that is given
// as a kind (`Ticks::after`, `Rows::decide`, `credit_row`, `find_greatest`, `write_frame`), and docs/PROMISES.md names them.
pub const INIT: u32 = 1;

pub const ECHO: u32 = 2;
