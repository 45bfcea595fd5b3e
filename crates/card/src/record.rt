// The record: which ones are accepted, and each way in which it changes.
ghost use Rattle.std.specs.Prelude.{◌≡◌};
ghost use Rattle.card.specs.Record.{shape_fits, sequence_fits, held_fits, is_accepted, cleared, in_mode, in_sequence, holding, with_afi, with_dsfid, powered_off};

use crate::{Card, Held, Mode, Sequence};
use slots::is_below;

#[tactic(auto, unfolding(crate::specs::Record::shape_fits))]
fn shape_fits(blocks: u32, size: u32) -> bool
    ensures { result ≡ shape_fits blocks size }
{
    (1..=256).contains(&blocks) && (1..=32).contains(&size)
}

#[tactic(auto, unfolding(crate::specs::Record::sequence_fits))]
fn sequence_fits(sequence: Sequence) -> bool
    ensures { result ≡ sequence_fits sequence }
{
    match sequence {
        Sequence::Idle => true,
        Sequence::Running(slot, n, mask) => slot <= 15 && n <= 60 && is_below(mask, n),
    }
}

#[tactic(auto, unfolding(crate::specs::Record::held_fits))]
fn held_fits(held: Held) -> bool
    ensures { result ≡ held_fits held }
{
    match held {
        Held::Free | Held::Success => true,
        Held::Code(code) => matches!(code, 0x02 | 0x10 | 0x11 | 0x12),
    }
}

impl Card {
    // Whether number 1 does not refuse the record.
    #[tactic(auto, unfolding(crate::specs::Record::is_accepted))]
    pub fn is_accepted(self) -> bool
        ensures { result ≡ is_accepted self }
    {
        shape_fits(self.blocks, self.size) && sequence_fits(self.sequence) && held_fits(self.held)
    }

    // What any frame does first.
    #[tactic(auto, unfolding(crate::specs::Record::cleared, crate::specs::Record::remade))]
    pub fn cleared(self) -> Card
        ensures { result ≡ cleared self }
    {
        Card {
            sequence: Sequence::Idle,
            held: Held::Free,
            ..self
        }
    }

    #[tactic(auto, unfolding(crate::specs::Record::in_mode, crate::specs::Record::remade))]
    pub fn in_mode(self, mode: Mode) -> Card
        ensures { result ≡ in_mode mode self }
    {
        Card { mode, ..self }
    }

    #[tactic(auto, unfolding(crate::specs::Record::in_sequence, crate::specs::Record::remade))]
    pub(crate) fn in_sequence(self, sequence: Sequence) -> Card
        ensures { result ≡ in_sequence sequence self }
    {
        Card { sequence, ..self }
    }

    #[tactic(auto, unfolding(crate::specs::Record::holding, crate::specs::Record::remade))]
    pub fn holding(self, held: Held) -> Card
        ensures { result ≡ holding held self }
    {
        Card { held, ..self }
    }

    // AFI and DSFID, each with its lock.
    #[tactic(auto, unfolding(crate::specs::Record::with_afi, crate::specs::Record::remade))]
    pub fn with_afi(self, afi: u8, locked: bool) -> Card
        ensures { result ≡ with_afi afi locked self }
    {
        Card {
            afi,
            afi_locked: locked,
            ..self
        }
    }

    #[tactic(auto, unfolding(crate::specs::Record::with_dsfid, crate::specs::Record::remade))]
    pub fn with_dsfid(self, dsfid: u8, locked: bool) -> Card
        ensures { result ≡ with_dsfid dsfid locked self }
    {
        Card {
            dsfid,
            dsfid_locked: locked,
            ..self
        }
    }

    // Power off: what is lost with it.
    #[tactic(auto, unfolding(crate::specs::Record::powered_off))]
    pub fn power_off(self) -> Card
        ensures { result ≡ powered_off self }
    {
        self.cleared().in_mode(Mode::Ready)
    }
}
