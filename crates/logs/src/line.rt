// A line of the listing: one for each call.
ghost use Rattle.std.specs.Prelude.{◌≡◌, [], ◌≤◌, length};
ghost use Rattle.node.specs.Answers.{outcome_by};
ghost use Rattle.node.specs.Layout.{header_size};
ghost use Rattle.text.specs.Page.{Fits, Wrote};
ghost use Rattle.logs.specs.Listing.{column_room, line_room, column, letter_of_mode};
ghost use Rattle.logs.specs.Played.{text_of, call_line, refusal_line};

use crate::refusal::Refusal;
use fields::field::word;
use node::calls::Answer;
use node::image::{MODE_PLACE, TICK_PLACE};
use text::decimal::MOST_DIGITS;
use text::page::Page;

// The most bytes of a line, 46: four numbers with a blank each, the mode and the newline.
pub(crate) const LINE_ROOM: usize = 4 * (MOST_DIGITS + 1) + 2;

// What a line shows: the event's number (0 for boot), the number given back, the records, k and the mode.
#[derive(Clone, Copy)]
pub(crate) struct Line {
    pub(crate) event: u32,
    pub(crate) number: u32,
    pub(crate) records: u32,
    pub(crate) k: u32,
    pub(crate) mode: u32,
}

impl Line {
    // The line of a call. k and mode stand in the image that the call left, whether it was refused or not; what it sent is not shown.
    #[tactic(auto, unfolding(node::specs::Image::node_of))]
    pub(crate) fn of_call(event: u32, answer: &Answer, image: &[u8]) -> Line
        requires { header_size ≤ length image.now }
        ensures { result ≡ call_line event (outcome_by answer.now image.now []) }
    {
        Line {
            event,
            number: answer.number,
            records: answer.records,
            k: word(image, TICK_PLACE),
            mode: u32::from(image[MODE_PLACE]),
        }
    }

    // The one line of a log that is refused.
    pub(crate) fn of_refusal(refusal: Refusal) -> Line
        ensures { result ≡ refusal_line refusal }
    {
        Line {
            event: 0,
            number: u32::from(refusal),
            records: 0,
            k: 0,
            mode: 0,
        }
    }

    // Puts the line.
    pub(crate) fn put(self, page: &mut Page<'_>)
        requires { Fits page.old line_room }
        ensures { Wrote page.old (text_of self) line_room page.new }
    {
        put_column(page, self.event);
        put_column(page, self.number);
        put_column(page, self.records);
        put_column(page, self.k);
        page.push(mode_letter(self.mode));
        page.push(b'\n');
    }
}

// Puts a number and a space.
fn put_column(page: &mut Page<'_>, n: u32)
    requires { Fits page.old column_room }
    ensures { Wrote page.old (column n) column_room page.new }
{
    page.put_decimal(n);
    page.push(b' ');
}

// p for a passive node, a for an active one. (A byte by hand: the listing is bytes that a contract fixes, and no clause of Display does.)
#[tactic(auto, unfolding(crate::specs::Listing::letter_of_mode))]
fn mode_letter(mode: u32) -> u8
    ensures { result ≡ letter_of_mode mode }
{
    if mode == 0 { b'p' } else { b'a' }
}
