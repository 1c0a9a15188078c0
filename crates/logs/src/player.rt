// The player: a log in, its listing out, in bytes lent by the caller. All that the program prints is made here.
ghost use Rattle.std.specs.Prelude.{◌≡◌, ◌+◌, ◌≤◌, length, IfOk};
ghost use Rattle.rules.specs.Describe.{last_tick};
ghost use Rattle.node.specs.Calls.{booted};
ghost use Rattle.node.specs.Layout.{header_size, layout};
ghost use Rattle.text.specs.Page.{Fits, Wrote};
ghost use Rattle.logs.specs.Listing.{listing_room, image_lent, out_lent};
ghost use Rattle.logs.specs.Listing.{event_call, call_lines, listing, played};
ghost use Rattle.logs.specs.Log.{event_size, form_of};
ghost use Rattle.logs.specs.Played.{played_by, TakenLog, CallShown};

use crate::file::{EVENT_SIZE, FORM_PLACE, FRAME_PLACE, Log, MOST_EVENTS, read_log};
use crate::line::{LINE_ROOM, Line};
use crate::refusal::Refusal;
use fields::field::word;
use node::calls;
use node::image::MOST_IMAGE;
use rules::node::Node;
use text::page::Page;

// Room for every listing: boot's line, and one for each of 4,096 events.
pub const LISTING_ROOM: usize = (MOST_EVENTS as usize + 1) * LINE_ROOM;

// Plays the event at a place of the log: delivers it, and gives its line.
fn play_event(log: &[u8], place: usize, event: u32, image: &mut [u8], sent: &mut [u8]) -> Line
    requires inside { place + event_size ≤ length log.now }
    requires header { header_size ≤ length image.old }
    ensures { CallShown event (event_call layout last_tick log.now place image.old sent.old)
        result image.new sent.new }
{
    let port = word(log, place);
    let frame = &log[place + FRAME_PLACE..place + EVENT_SIZE];
    let answer = calls::deliver(image, port, frame, sent);
    Line::of_call(event, &answer, image)
}

// Boots the form of a log that is taken, puts boot's line and, where the form is taken too, plays the events and puts the line of each.
fn play_calls(log: &[u8], taken: Log, page: &mut Page<'_>)
    requires taken { TakenLog log.now taken }
    requires fits { Fits page.old listing_room }
    ensures { Wrote page.old
        (call_lines layout last_tick log.now (booted layout (form_of log.now) image_lent out_lent))
        listing_room page.new }
{
    let mut image = [0u8; MOST_IMAGE];
    let mut sent = [0u8; Node::ROOM];
    let start = taken.events as usize;
    let answer = calls::boot(&log[FORM_PLACE..start], &mut image, &mut sent);
    let boot = Line::of_call(0, &answer, &image);
    boot.put(page);
    // a C answer, as node::calls gives it: a refusal has a number that is not 0
    if boot.number != 0 {
        return;
    }
    for event in 0..taken.count {
        let place = start + EVENT_SIZE * event as usize;
        let line = play_event(log, place, event + 1, &mut image, &mut sent);
        line.put(page);
    }
}

// Puts the listing of a log.
fn put_listing(log: &[u8], page: &mut Page<'_>)
    requires { Fits page.old listing_room }
    ensures { Wrote page.old (listing layout last_tick log.now) listing_room page.new }
{
    match read_log(log) {
        Ok(taken) => play_calls(log, taken, page),
        Err(refusal) => Line::of_refusal(refusal).put(page),
    }
}

// The listing of a log.
pub fn play(log: &[u8], out: &mut [u8]) -> Result<usize, Refusal>
    ensures told { played_by result out.new ≡ played layout last_tick log.now out.old }
    ensures within { IfOk result (λ size. size ≤ length out.new) }
{
    if out.len() < LISTING_ROOM {
        return Err(Refusal::Room);
    }
    let mut page = Page::new(out);
    put_listing(log, &mut page);
    Ok(page.len())
}
