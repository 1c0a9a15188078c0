// The layouts of an image, as specs/Layout.antt has them: the one in service, and the old one, which only the converter reads.
ghost use Rattle.std.specs.Prelude.{◌≡◌, ◌<◌};
ghost use Rattle.node.specs.Layout.{image_size, layout, old_layout};

use rules::node::Node;
use sets::mask::Mask;

// Bytes of the header, in every layout; the rows stand behind it.
pub const HEADER: usize = 32;

// Offset of the rows as the header's field states it.
pub(crate) const OFFSET: u32 = HEADER as u32;

// Bytes of a mask as a layout states them, and of a mask from before A8.
const MASKS: u8 = Mask::BYTES as u8;

pub const OLD_MASKS: u8 = 8;

#[derive(Clone, Copy)]
pub struct Layout {
    // ticks that a set reaches down from its top; the code takes it from `Node`, and contracts from here
    pub window: u32,
    // bytes of a mask
    pub masks: u8,
    // header byte 3, which tells this layout from others
    pub mark: u8,
}

impl Layout {
    pub fn in_service() -> Layout
        ensures { result ≡ layout }
    {
        Layout {
            window: Node::WINDOW,
            masks: MASKS,
            mark: 1,
        }
    }

    // From before A8.
    pub fn old() -> Layout
        ensures { result ≡ old_layout }
    {
        Layout {
            window: 64,
            masks: OLD_MASKS,
            mark: 0,
        }
    }

    // Bytes of an image with n rows: the header, and a serial and two sets of a top and a mask in each row.
    pub fn size(self, n: u32) -> u32
        requires { n < 256 }
        ensures { result ≡ image_size self n }
    {
        let row = 4 + 2 * (4 + self.masks as u32);
        OFFSET + n * row
    }
}
