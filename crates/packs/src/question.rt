// The question: is a pack in force at the clock of a node? The answer is that of the entry that has the number, wherever it stands.
ghost use Rattle.std.specs.Prelude.{◌≡◌};
ghost use Rattle.rules.specs.Describe.{last_tick};
ghost use Rattle.node.specs.Layout.{layout};
ghost use Rattle.packs.specs.Number.{licence_of};
ghost use Rattle.packs.specs.Question.{licence, asked_by, pack_told, unread_as};

use crate::answer::{Licence, Refusal};
use crate::entries::Entries;
use crate::sheet::entries_of;
use node::answer;
use node::calls::try_read;

impl<'a> Entries<'a> {
    // How a pack stands at a tick.
    #[tactic(auto, unfolding(crate::specs::Question::licence))]
    fn licence(&self, pack: u32, tick: u32) -> Licence
        ensures { licence_of result ≡ licence pack tick self.now }
    {
        if self.any(|e| e.is_in_force(pack, tick)) {
            return Licence::InForce;
        }
        if self.lists(pack) {
            return Licence::NotInForce;
        }
        Licence::NotLicensed
    }
}

// A node that tells no clock is passive, or else its image is at fault: nothing else is refused in reading it.
impl From<answer::Refusal> for Refusal {
    ghost from_gives = { λ why refusal. refusal ≡ unread_as why };

    fn from(why: answer::Refusal) -> Refusal {
        match why {
            answer::Refusal::Passive => Refusal::Passive,
            _ => Refusal::Image,
        }
    }
}

// Refused where read refuses the image, or the sheet is.
pub fn ask(sheet: &[u8], pack: u32, image: &[u8]) -> Result<Licence, Refusal>
    ensures { asked_by result ≡ pack_told layout last_tick sheet.now pack image.now }
{
    let tick = try_read(image)?;
    let entries = entries_of(sheet)?;
    Ok(entries.licence(pack, tick))
}
