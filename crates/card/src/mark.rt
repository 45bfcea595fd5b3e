// A slot mark: it releases a held answer, or moves a running sequence.
ghost use Rattle.std.specs.Prelude.{◌≡◌};
ghost use Rattle.card.specs.Mark.{moved, marked};

use crate::inventory::present_if;
use crate::{Card, Held, Reply, Sequence, Turn};
use slots::fits_slot;

impl Card {
    #[tactic(auto, unfolding(crate::specs::Mark::moved))]
    fn moving(self) -> Turn
        ensures { result ≡ moved self self.sequence }
    {
        match self.sequence {
            Sequence::Running(slot, n, mask) if slot < 15 => {
                let next = slot + 1;
                Turn {
                    card: self.in_sequence(Sequence::Running(next, n, mask)),
                    reply: present_if(fits_slot(self.uid, n, mask, next)),
                }
            }
            Sequence::Running(_, _, _) => Turn::still(self.in_sequence(Sequence::Idle)),
            Sequence::Idle => Turn::still(self),
        }
    }

    // What a slot mark makes of the record, and what is answered.
    #[tactic(auto, unfolding(crate::specs::Mark::marked, crate::specs::Mark::released))]
    pub fn hear_mark(self) -> Turn
        ensures { result ≡ marked self }
    {
        match self.held {
            Held::Free => self.moving(),
            Held::Success => Turn {
                card: self.holding(Held::Free),
                reply: Reply::Done,
            },
            Held::Code(code) => Turn {
                card: self.holding(Held::Free),
                reply: Reply::Error(code),
            },
        }
    }
}
