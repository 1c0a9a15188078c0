// What a search asks of: the sets of one kind in the rows, as far as a window shows them.
ghost use Rattle.std.specs.Prelude.{◌≤◌};
ghost use Rattle.sets.specs.Sets.{mask_bits};

use evidence::list::Rows;

#[derive(Drop)]
pub struct Question<'a> {
    pub rows: &'a Rows<'a>,
    pub kind: u32,
    // how many ticks the window is wide: it fits a mask
    pub w: u32,
    ghost narrow: { w ≤ mask_bits },
}
