// The node image in lent bytes: its header read and written, its rows made, and whether it is sound.
ghost use Rattle.std.specs.Prelude.{◌≡◌, ◌&&◌, ◌+◌, ◌*◌, ◌≤◌, ◌<◌, true, false, leb, length, IfOk, IfErr};
ghost use Rattle.forms.specs.Roster.{most_lines};
ghost use Rattle.sets.specs.Sets.{mask_bytes};
ghost use Rattle.evidence.specs.Rows.{put_rows};
ghost use Rattle.rules.specs.Describe.{window, last_tick, fresh_rows};
ghost use Rattle.node.specs.declared.answer.Refusal.TheVariants.{Unsound};
ghost use Rattle.node.specs.Image.{node_of, state_with, fixed_header, headed};
ghost use Rattle.node.specs.Layout.{layout, header_size, image_size};
ghost use Rattle.node.specs.Image.{Writable, put_clock_bytes, put_fixed_bytes, put_node_bytes, sound_state, sound_image};

use crate::answer::Refusal;
use crate::layout::{HEADER, Layout, OFFSET};
use evidence::list::Rows;
use evidence::rows::{ROW, put_row};
use fields::field::{half, put_half, put_word, word};
use forms::column::Column;
use forms::roster::{MOST_LINES, judge};
use rules::node::Node;
use sets::ticks::Ticks;

// Bytes of the longest image.
pub const MOST_IMAGE: usize = HEADER + MOST_LINES * ROW;

// Where mode, own serial, k and the last echo sent stand in the header.
pub const MODE_PLACE: usize = 2;

const OWN_PLACE: usize = 4;

pub const TICK_PLACE: usize = 8;

const SENT_PLACE: usize = 12;

// The node of a header. Its mode stays a number: `node_of` is of any bytes, and only a sound image has 0 or 1 there.
pub fn read_node(b: &[u8]) -> Node
    requires { header_size ≤ length b.now }
    ensures { result ≡ node_of b.now }
{
    Node {
        lines: b[0] as u32,
        faults: b[1] as u32,
        own: word(b, OWN_PLACE),
        mode: b[MODE_PLACE] as u32,
        tick: word(b, TICK_PLACE),
        sent: word(b, SENT_PLACE),
    }
}

// Byte 3, the offset of the rows, the whole size, and the zeros behind it, as a layout has them.
fn has_fixed_header(b: &[u8], layout: Layout) -> bool
    requires { header_size ≤ length b.now }
    ensures { result ≡ fixed_header layout b.now }
{
    // by their sum they are read as words; one by one the compiler would read each byte
    let zeros = word(b, 20) as u64 + word(b, 24) as u64 + word(b, 28) as u64;
    b[3] == layout.mark
        && half(b, 16) == OFFSET
        && half(b, 18) == layout.size(b[0] as u32)
        && zeros == 0
}

// Whether a buffer begins with a header of this layout, and has the rows that it states.
pub fn has_header(b: &[u8], layout: Layout) -> bool
    ensures { result ≡ headed layout b.now }
{
    HEADER <= b.len() && half(b, 18) as usize <= b.len() && has_fixed_header(b, layout)
}

// Whether mode is 0 or 1, and last echo ≤ k ≤ last tick.
pub fn has_sound_clock(node: Node) -> bool
    ensures { result
        ≡ (leb node.mode 1 && (leb node.sent node.tick && leb node.tick last_tick)) }
{
    node.mode <= 1 && node.sent <= node.tick && node.tick <= Node::LAST_TICK
}

// Whether the node and its rows are as a sound image holds them.
fn is_sound_state(b: &[u8], node: Node) -> bool
    requires { image_size layout node.lines ≤ length b.now }
    ensures { result ≡ sound_state window last_tick (state_with layout node b.now) }
{
    let rows = Rows::new(b, HEADER, node.lines as usize);
    judge(node.faults, node.own, &rows.serials()).is_ok()
        && has_sound_clock(node)
        && rows.are_proper(Node::WINDOW, Node::LAST_TICK)
        && node.rule(&rows).is_at_rest()
}

// The node of a sound image: all that number 8 asks.
pub(crate) fn sound_node(b: &[u8]) -> Result<Node, Refusal>
    ensures sound { IfOk result (λ node. (sound_image layout last_tick b.now ≡ true) × (node ≡ node_of b.now)) }
    ensures refused { IfErr result (λ why. (sound_image layout last_tick b.now ≡ false) × (why ≡ Unsound)) }
{
    if !has_header(b, Layout::in_service()) {
        return Err(Refusal::Unsound);
    }
    let node = read_node(b);
    if !is_sound_state(b, node) {
        return Err(Refusal::Unsound);
    }
    Ok(node)
}

// Writes mode, k and the last echo sent: what a delivery changes in the header.
pub(crate) fn put_clock(b: &mut [u8], node: Node)
    requires { (header_size ≤ length b.old) × (node.mode < 256) }
    ensures { b.new ≡ put_clock_bytes b.old node }
{
    b[MODE_PLACE] = node.mode as u8;
    put_word(b, TICK_PLACE, node.tick);
    put_word(b, SENT_PLACE, node.sent);
}

// Writes the fixed values of a header for n rows.
fn put_fixed(b: &mut [u8], layout: Layout, n: u32)
    requires { (header_size ≤ length b.old) × (n ≤ most_lines) }
    ensures { b.new ≡ put_fixed_bytes layout b.old n }
{
    b[3] = layout.mark;
    put_half(b, 16, OFFSET);
    put_half(b, 18, layout.size(n));
    put_word(b, 20, 0);
    put_word(b, 24, 0);
    put_word(b, 28, 0);
}

// Writes a whole header.
pub fn put_node(b: &mut [u8], node: Node)
    requires { Writable node b.old }
    ensures { b.new ≡ put_node_bytes layout b.old node }
{
    put_fixed(b, Layout::in_service(), node.lines);
    b[0] = node.lines as u8;
    b[1] = node.faults as u8;
    put_word(b, OWN_PLACE, node.own);
    put_clock(b, node);
}

// Writes a row with empty sets for each of a form's serials.
pub(crate) fn put_fresh_rows(b: &mut [u8], serials: &Column)
    requires { image_size layout (length serials.now) ≤ length b.old }
    ensures { b.new ≡ put_rows mask_bytes b.old header_size (fresh_rows serials.now) }
{
    for line in 0..serials.len() {
        let serial = serials.number(line);
        put_row(b, HEADER + line * ROW, serial, Ticks::none(), Ticks::none());
    }
}
