// The row of cards: each slot, what the walk sends reaches every card, and what they answer is in the air.
ghost use Rattle.std.specs.Prelude.{◌≡◌};
ghost use Rattle.row.specs.Row.{card_of, sent_of, turn_by, air_with, HearsRow};

use crate::{Air, Sent};
use card::{Card, Held, Mode, Reply, Sequence, Turn};
use walk::{Send, Walk};

// A card of the bench.
#[tactic(auto, unfolding(crate::specs::Row::card_of))]
pub(crate) fn card_of(uid: u64) -> Card
    ensures { result ≡ card_of uid }
{
    Card {
        blocks: 1,
        size: 1,
        uid,
        afi: 0,
        dsfid: 0,
        afi_locked: false,
        dsfid_locked: false,
        ic_reference: 0,
        mode: Mode::Ready,
        sequence: Sequence::Idle,
        held: Held::Free,
    }
}

// What the walk sends, asked for once a slot. One that refuses to be asked sends nothing.
fn sending(walk: Walk) -> Sent
    ensures { result ≡ sent_of walk }
{
    let mut bytes = [0u8; 14];
    let send = match walk.ask(&mut bytes) {
        Ok(asked) => asked.send,
        Err(_) => Send::Nothing,
    };
    Sent { send, bytes }
}

// What is sent reaches a card.
fn turn(card: Card, sent: Sent) -> Turn
    ensures { result ≡ turn_by sent card }
{
    match sent.send {
        Send::Nothing => Turn {
            card,
            reply: Reply::Silence,
        },
        Send::Mark => card.hear_mark(),
        Send::Request(n) => card.hear_inventory(&sent.bytes[..n.min(14)]),
    }
}

// What is in the air when one card more replies. A reply that is no inventory answer is heard as a clash.
#[tactic(auto, unfolding(crate::specs::Row::air_with, crate::specs::Row::crowded))]
fn air_with(air: Air, card: Card, reply: Reply) -> Air
    ensures { result ≡ air_with air card reply }
{
    match reply {
        Reply::Silence => air,
        Reply::Present if air.answers == 0 => Air {
            answers: 1,
            dsfid: card.dsfid,
            uid: card.uid,
        },
        _ => Air { answers: 2, ..air },
    }
}

// A slot over the whole row.
pub fn listen_row(row: &mut [Card], walk: Walk) -> Air
    ensures { HearsRow walk row.old result row.new }
{
    let sent = sending(walk);
    let mut air = Air {
        answers: 0,
        dsfid: 0,
        uid: 0,
    };
    for card in row.iter_mut() {
        let turn = turn(*card, sent);
        *card = turn.card;
        air = air_with(air, turn.card, turn.reply);
    }
    air
}
