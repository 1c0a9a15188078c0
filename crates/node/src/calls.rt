// The calls on byte buffers: boot, deliver and read. Nothing has to be checked beforehand: every form, image, port, frame and output
// is handled. A refusal gives its number and changes no byte.
ghost use Rattle.std.specs.Prelude.{◌≡◌, IfOk};
ghost use Rattle.node.specs.Answers.{outcome_by, reading_by, answered, clock_told};
ghost use Rattle.node.specs.Calls.{booted, number_before_a_frame, deliver_outcome, reading};
ghost use Rattle.rules.specs.Describe.{last_tick};
ghost use Rattle.node.specs.Image.{node_of};
ghost use Rattle.node.specs.Layout.{layout};
ghost use Rattle.node.specs.Number.{verdict_of};

use crate::answer::Refusal;
use crate::image::{put_clock, put_fresh_rows, put_node, sound_node};
use crate::layout::HEADER;
use evidence::list::Rows;
use evidence::rows::ROW;
use fields::kind::ECHO;
use forms::column::Column;
use forms::form::{SERIALS, read_form};
use forms::frame::read_frame;
use rules::node::Node;
use rules::record::put_broadcast;

// The number of a call, the records that stand in the output, and how many times a rule fired. A C struct, since crate `pebrassola` exports
// boot and deliver to C: so a number stands in it and no Result.
#[repr(C)]
#[derive(Drop)]
pub struct Answer {
    pub number: u32,
    pub records: u32,
    pub fired: u32,
}

// The number of a call, and the clock. A C struct for `pebrassola`'s read, as the one above.
#[repr(C)]
#[derive(Drop)]
pub struct Reading {
    pub number: u32,
    pub clock: u32,
}

// What an accepted boot or delivery reports: the records that stand in the output, and how many times a rule fired.
#[derive(Clone, Copy)]
struct Done {
    records: u32,
    fired: u32,
}

impl From<Result<Done, Refusal>> for Answer {
    ghost from_gives = { λ told answer. answer ≡ answered told };

    fn from(told: Result<Done, Refusal>) -> Answer {
        match told {
            Ok(done) => Answer {
                number: 0,
                records: done.records,
                fired: done.fired,
            },
            Err(why) => Answer {
                number: u32::from(why),
                records: 0,
                fired: 0,
            },
        }
    }
}

impl From<Result<u32, Refusal>> for Reading {
    ghost from_gives = { λ told r. r ≡ clock_told told };

    fn from(told: Result<u32, Refusal>) -> Reading {
        match told {
            Ok(clock) => Reading { number: 0, clock },
            Err(why) => Reading {
                number: u32::from(why),
                clock: 0,
            },
        }
    }
}

// Makes a fresh node of a form.
pub fn boot(form: &[u8], image: &mut [u8], out: &mut [u8]) -> Answer
    ensures { outcome_by result image.new out.new
        ≡ booted layout form.now image.old out.old }
{
    Answer::from(try_boot(form, image, out))
}

fn try_boot(form: &[u8], image: &mut [u8], out: &mut [u8]) -> Result<Done, Refusal>
    ensures { outcome_by (answered result) image.new out.new
        ≡ booted layout form.now image.old out.old }
{
    let roster = read_form(form)?;
    let n = roster.lines as usize;
    if image.len() < HEADER + n * ROW {
        return Err(Refusal::Short);
    }
    if out.len() < Node::ROOM {
        return Err(Refusal::Room);
    }
    put_node(image, Node::new(roster.lines, roster.faults, roster.own));
    put_fresh_rows(image, &Column::new(form, SERIALS, 4, n));
    put_broadcast(out, 0, ECHO, 0);
    Ok(Done {
        records: 1,
        fired: 0,
    })
}

// The node that a delivery is for. Its frame is not looked at yet: first the room, then the image, then the port.
fn receiver(image: &[u8], port: u32, room: usize) -> Result<Node, Refusal>
    ensures number { verdict_of result
        ≡ number_before_a_frame layout last_tick image.now port room }
    ensures node { IfOk result (λ node. node ≡ node_of image.now) }
{
    if room < Node::ROOM {
        return Err(Refusal::Room);
    }
    let node = sound_node(image)?;
    let rows = Rows::new(image, HEADER, node.lines as usize);
    if !rows.serials().contains(port) {
        return Err(Refusal::Port);
    }
    Ok(node)
}

// Takes one frame that the wiring delivered from a port. The frame is read once, and what was read is delivered.
pub fn deliver(image: &mut [u8], port: u32, frame: &[u8], out: &mut [u8]) -> Answer
    ensures { outcome_by result image.new out.new
        ≡ deliver_outcome layout last_tick image.old port frame.now out.old }
{
    Answer::from(try_deliver(image, port, frame, out))
}

fn try_deliver(image: &mut [u8], port: u32, frame: &[u8], out: &mut [u8]) -> Result<Done, Refusal>
    ensures { outcome_by (answered result) image.new out.new
        ≡ deliver_outcome layout last_tick image.old port frame.now out.old }
{
    let node = receiver(image, port, out.len())?;
    let taken = read_frame(frame, Node::LAST_TICK)?;
    let next = node.deliver(image, HEADER, port, taken, out);
    put_clock(image, next.node);
    Ok(Done {
        records: next.records as u32,
        fired: next.fired as u32,
    })
}

// The clock of an active node.
pub fn read(image: &[u8]) -> Reading
    ensures { reading_by result ≡ reading layout last_tick image.now }
{
    Reading::from(try_read(image))
}

// The same for a caller in Rattle, such as the question of crate `packs`: the clock, or why there is none.
pub fn try_read(image: &[u8]) -> Result<u32, Refusal>
    ensures { reading_by (clock_told result) ≡ reading layout last_tick image.now }
{
    let node = sound_node(image)?;
    if node.mode == 0 {
        return Err(Refusal::Passive);
    }
    Ok(node.tick)
}
