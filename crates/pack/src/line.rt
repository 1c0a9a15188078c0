// The line that the program prints about a question, made in bytes that it lends.
ghost use Rattle.std.specs.Prelude.{◌≡◌, ◌≤◌, length};
ghost use Rattle.rules.specs.Describe.{last_tick};
ghost use Rattle.node.specs.Layout.{layout};
ghost use Rattle.text.specs.Page.{Fits, Wrote};
ghost use Rattle.text.specs.Puts.{Puts};
ghost use Rattle.packs.specs.Number.{licence_of, number_of};
ghost use Rattle.packs.specs.Question.{asked_by, pack_told};
ghost use Rattle.pack.specs.Line.{standing, refusal, words, line, words_room, line_room};

use packs::answer::{Licence, Refusal};
use packs::question::ask;
use text::decimal::MOST_DIGITS;
use text::page::Page;

// What stands before the number of a refusal: 8 bytes.
const REFUSED: &[u8; 8] = b"refused ";

// The most bytes of a line, 19: that word, a number and the newline.
pub const LINE_ROOM: usize = REFUSED.len() + MOST_DIGITS + 1;

// How a pack stands, in words.
#[tactic(auto, unfolding(crate::specs::Line::standing))]
fn standing(how: Licence) -> &'static [u8]
    ensures words { result.now ≡ standing (licence_of how) }
    ensures within { length result.now ≤ words_room }
{
    match how {
        Licence::InForce => b"in force",
        Licence::NotInForce => b"not in force",
        Licence::NotLicensed => b"not licensed",
    }
}

// Puts the number of a refusal.
#[tactic(auto, unfolding(crate::specs::Line::refusal))]
fn put_refusal(page: &mut Page<'_>, why: Refusal)
    requires { Fits page.old words_room }
    ensures { Wrote page.old (refusal (number_of why)) words_room page.new }
{
    page.put(REFUSED);
    page.put_decimal(u32::from(why));
}

// Puts what an answer says: the number of a refusal, or how the pack stands.
#[tactic(auto, using(packs::proofs::Told::refusal), unfolding(crate::specs::Line::words))]
fn put_words(page: &mut Page<'_>, answer: Result<Licence, Refusal>)
    requires { Fits page.old words_room }
    ensures { Wrote page.old (words (asked_by answer)) words_room page.new }
{
    match answer {
        Ok(how) => page.put(standing(how)),
        Err(why) => put_refusal(page, why),
    }
}

// Asks whether a pack is in force, and puts the line of the answer.
pub fn show(sheet: &[u8], pack: u32, image: &[u8], out: &mut [u8; LINE_ROOM]) -> usize
    ensures { Puts out.old 0 (line (pack_told layout last_tick sheet.now pack image.now))
        line_room out.new result }
{
    let mut page = Page::new(out);
    put_words(&mut page, ask(sheet, pack, image));
    page.push(b'\n');
    page.len()
}
