// The card's record as forty lent bytes, for C: a card read from them, and one written back.
#![tactic(auto)]

mod bytes;
mod meaning;

ghost use Rattle.std.specs.Prelude.{◌≡◌};
ghost use Rattle.refusals.specs.Number.{number_of};
ghost use Rattle.record.specs.Record.{card_read, Writes};

use crate::bytes::put_card;
use crate::meaning::{card_of, no_card};
use card::Card;
use refusals::Refusal;

// The length of the record.
const LENGTH: usize = 40;

// The card that the bytes mean. Bytes of another length mean a card of no blocks, which number 1 refuses.
#[tactic(auto, unfolding(crate::specs::Record::card_read, crate::specs::Record::record_length))]
pub fn read(bytes: &[u8]) -> Card
    ensures { result ≡ card_read bytes.now }
{
    if bytes.len() != LENGTH {
        return no_card();
    }
    card_of(bytes)
}

// Writes a card. Bytes of another length stay.
#[tactic(auto, unfolding(crate::specs::Record::write_number, crate::specs::Record::write_leaves, crate::specs::Record::record_length, refusals::specs::Number::number, refusals::specs::Number::number_of))]
pub fn write(card: Card, bytes: &mut [u8]) -> Result<(), Refusal>
    ensures { Writes card bytes.old (number_of result) bytes.new }
{
    if bytes.len() != LENGTH {
        return Err(Refusal::CardRecord);
    }
    put_card(card, bytes);
    Ok(())
}
