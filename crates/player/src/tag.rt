// The tag that is played: its card, with room for the most memory and lock bytes that a card has.
ghost use Rattle.std.specs.Prelude.{◌≤◌};

use card::Card;
use play::Served;
use refusals::Refusal;

// What a tag is played.
#[derive(Clone, Copy)]
pub(crate) enum Event<'a> {
    Frame(&'a [u8]),
    Mark,
    Off,
}

#[derive(Drop)]
pub(crate) struct Tag {
    card: Card,
    memory: [u8; 8192],
    locks: [u8; 256],
}

// One number of a card's shape, or 0 where it is over its limit: the card refuses such a shape.
fn within(n: u32, most: usize) -> usize
    ensures { result ≤ most }
{
    if n as usize <= most { n as usize } else { 0 }
}

// How many blocks a card has, of what size, and of how many bytes in all.
fn blocks(card: Card) -> usize
    ensures { result ≤ 256 }
{
    within(card.blocks, 256)
}

fn size(card: Card) -> usize
    ensures { result ≤ 32 }
{
    within(card.size, 32)
}

fn cells(card: Card) -> usize
    ensures { result ≤ 8192 }
{
    blocks(card) * size(card)
}

impl Event<'_> {
    // Played with as much of memory and locks as is the card's.
    fn play(
        self,
        card: Card,
        memory: &mut [u8; 8192],
        locks: &mut [u8; 256],
        room: &mut [u8],
    ) -> Result<Served, Refusal> {
        let memory = &mut memory[..cells(card)];
        let locks = &mut locks[..blocks(card)];
        match self {
            Event::Frame(frame) => play::events::frame(card, frame, memory, locks, room),
            Event::Mark => play::events::mark(card, memory, locks, room),
            Event::Off => play::events::power_off(card, memory, locks, room),
        }
    }
}

impl Tag {
    pub(crate) fn new(card: Card) -> Tag {
        Tag {
            card,
            memory: [0; 8192],
            locks: [0; 256],
        }
    }

    pub(crate) fn card(&self) -> Card {
        self.card
    }

    // The size of its blocks.
    pub(crate) fn size(&self) -> usize
        ensures { result ≤ 32 }
    {
        size(self.card)
    }

    pub(crate) fn memory(&self) -> &[u8] {
        &self.memory[..cells(self.card)]
    }

    pub(crate) fn locks(&self) -> &[u8] {
        &self.locks[..blocks(self.card)]
    }

    // Plays an event, and returns the answer, which is put into the room. Where the event is refused the tag stays as it was.
    pub(crate) fn play<'a>(
        &mut self,
        event: Event,
        room: &'a mut [u8],
    ) -> Result<&'a [u8], Refusal> {
        let Tag {
            card,
            memory,
            locks,
        } = self;
        let served = event.play(*card, memory, locks, room)?;
        *card = served.card;
        Ok(&room[..served.length.min(room.len())])
    }
}
