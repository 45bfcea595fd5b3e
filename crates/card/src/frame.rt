// A frame, from its first test on.
ghost use Rattle.std.specs.Prelude.{◌≡◌};
ghost use Rattle.card.specs.Frame.{heard_inventory};

use crate::inventory::inventory;
use crate::{Card, Turn};
use frames::{Flags, byte_at};

impl Card {
    // A frame to a card without memory, for a reader that sends inventory requests alone: any other frame only clears.
    #[tactic(auto, unfolding(crate::specs::Frame::heard_inventory))]
    pub fn hear_inventory(self, frame: &[u8]) -> Turn
        ensures { result ≡ heard_inventory self frame.now }
    {
        let card = self.cleared();
        let f = Flags::of(byte_at(frame, 0));
        if !frames::is_sound(frame) || f.b4 || f.b8 || !f.b3 {
            return Turn::still(card);
        }
        inventory(card, f, frame)
    }
}
