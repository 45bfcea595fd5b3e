// The walk with its list, slot after slot over the row.
ghost use Rattle.std.specs.Prelude.{◌≡◌, take};
ghost use Rattle.row.specs.Row.{air_kind, desk_after, cards_of};
ghost use Rattle.row.specs.Steps.{bytes_heard};
ghost use Rattle.row.specs.Play.{fresh_desk, slotted, goes_on, ended};

use crate::row::{card_of, listen_row};
use crate::{Air, Desk, Slotted};
use card::Card;
use walk::{Kind, MOST_ROUNDS, Walk};

// The most slots of a walk: 16 in each of its rounds.
const MOST_SLOTS: u32 = 16 * (MOST_ROUNDS as u32);

// A fresh walk of no family, with an empty list.
#[tactic(auto, unfolding(crate::specs::Play::fresh_desk, crate::specs::Play::no_uids))]
pub fn fresh() -> Desk
    ensures { result ≡ fresh_desk }
{
    Desk {
        walk: Walk::start(256),
        list: [0; 64],
    }
}

// The cards of the UIDs, one at each place. Put where they stay: `map` of the array holds it four times more on the stack.
pub fn deal(uids: [u64; 100]) -> [Card; 100]
    ensures { result ≡ cards_of uids }
{
    let mut row = [card_of(0); 100];
    for (i, card) in row.iter_mut().enumerate() {
        *card = card_of(uids[i]);
    }
    row
}

#[tactic(auto, unfolding(crate::specs::Row::air_kind))]
fn kind_of(air: Air) -> Kind
    ensures { result ≡ air_kind air }
{
    match air.answers {
        0 => Kind::Silence,
        1 => Kind::Bytes,
        _ => Kind::Clash,
    }
}

// The bytes of the answer in the air, where there is just one.
fn answer_in(air: Air) -> [u8; 12]
    ensures { result ≡ bytes_heard air }
{
    let mut bytes = [0u8; 12];
    if air.answers == 1 {
        bytes[1] = air.dsfid;
        // Twelve bytes have room for the UID and the check.
        let _ = frames::put_field(&mut bytes, 2, 8, air.uid);
        let _ = frames::seal(&mut bytes, 10);
    }
    bytes
}

// The answer in the air reaches the walk. One that refuses to hear stays as it is.
pub fn hear(desk: Desk, air: Air) -> Desk
    ensures { result ≡ desk_after desk air }
{
    let mut list = desk.list;
    let heard = desk.walk.hear(kind_of(air), &answer_in(air), &mut list);
    Desk {
        walk: heard.unwrap_or(desk.walk),
        list,
    }
}

// One slot over the first n cards of the row.
pub fn slot(mut row: [Card; 100], n: usize, desk: Desk) -> Slotted
    ensures { result ≡ slotted row n desk }
{
    let air = listen_row(&mut row[..n.min(100)], desk.walk);
    Slotted {
        row,
        desk: hear(desk, air),
        air,
    }
}

// Whether a slot is still to be heard after n.
#[tactic(auto, unfolding(crate::specs::Play::goes_on, walk::specs::Record::most_slots, walk::specs::Record::most_rounds, walk::specs::Marks::levels, walk::specs::Record::is_running))]
pub fn goes_on(desk: Desk, n: u32) -> bool
    ensures { result ≡ goes_on desk n }
{
    n < MOST_SLOTS && desk.walk.ending == 0
}

// A fresh walk over the cards of the first n UIDs, over 100 of 100, to its end: for each slot they are lent where they stand.
pub fn play(uids: [u64; 100], n: usize) -> Desk
    ensures { result ≡ ended (take n uids) }
{
    let cards = n.min(100);
    let mut row = deal(uids);
    let mut desk = fresh();
    for slot in 0..MOST_SLOTS {
        if !goes_on(desk, slot) {
            break;
        }
        let air = listen_row(&mut row[..cards], desk.walk);
        desk = hear(desk, air);
    }
    desk
}
