// An inventory request: who takes part, and who answers at once.
ghost use Rattle.std.specs.Prelude.{◌≡◌};
ghost use Rattle.card.specs.Inventory.{length_place, mask_limit, mask_of, total_length, fits_family, takes_part, present, joins, is_inventory, inventoried};

use crate::{Card, Mode, Reply, Sequence, Turn};
use frames::{Flags, byte_at};
use slots::{fits_mask, fits_slot, low_bits, mask_bytes};

#[tactic(auto, unfolding(crate::specs::Inventory::length_place))]
fn length_place(f: Flags) -> usize
    ensures { result ≡ length_place f }
{
    if f.b5 { 3 } else { 2 }
}

#[tactic(auto, unfolding(crate::specs::Inventory::mask_limit))]
fn mask_limit(f: Flags) -> u8
    ensures { result ≡ mask_limit f }
{
    if f.b6 { 64 } else { 60 }
}

#[tactic(auto, unfolding(crate::specs::Inventory::mask_of, crate::specs::Inventory::length_place))]
fn mask_of(f: Flags, frame: &[u8], n: u8) -> u64
    ensures { result ≡ mask_of f frame.now n }
{
    let at = length_place(f);
    low_bits(frames::field(frame, at + 1, mask_bytes(n)), n)
}

#[tactic(auto, unfolding(crate::specs::Inventory::total_length, crate::specs::Inventory::length_place, slots::specs::Fits::mask_bytes))]
fn total_length(f: Flags, n: u8) -> usize
    ensures { result ≡ total_length f n }
{
    length_place(f) + 1 + mask_bytes(n) + 2
}

// Whether an asked AFI calls a card. A low digit 0 stands for all low digits, and 00 calls every card.
#[tactic(auto, unfolding(crate::specs::Inventory::fits_family))]
fn fits_family(asked: u8, own: u8) -> bool
    ensures { result ≡ fits_family asked own }
{
    if asked % 16 == 0 {
        asked == 0x00 || asked / 16 == own / 16
    } else {
        asked == own
    }
}

#[tactic(auto, unfolding(crate::specs::Inventory::takes_part))]
fn takes_part(card: Card, f: Flags, frame: &[u8]) -> bool
    ensures { result ≡ takes_part card f frame.now }
{
    !f.b5 || fits_family(byte_at(frame, 2), card.afi)
}

#[tactic(auto, unfolding(crate::specs::Inventory::present))]
pub(crate) fn present_if(fits: bool) -> Reply
    ensures { result ≡ present fits }
{
    if fits { Reply::Present } else { Reply::Silence }
}

#[tactic(auto, unfolding(crate::specs::Inventory::joins))]
fn joining(card: Card, f: Flags, frame: &[u8], n: u8) -> Turn
    ensures { result ≡ joins card f frame.now n }
{
    let mask = mask_of(f, frame, n);
    if f.b6 {
        Turn {
            card,
            reply: present_if(fits_mask(card.uid, n, mask)),
        }
    } else {
        Turn {
            card: card.in_sequence(Sequence::Running(0, n, mask)),
            reply: present_if(fits_slot(card.uid, n, mask, 0)),
        }
    }
}

#[tactic(auto, unfolding(crate::specs::Inventory::is_inventory, crate::specs::Record::is_quiet))]
fn is_inventory(card: Card, f: Flags, frame: &[u8], n: u8) -> bool
    ensures { result ≡ is_inventory card f frame.now n }
{
    // `&`: a way out after each test would take more code.
    !f.b7
        & !matches!(card.mode, Mode::Quiet)
        & (byte_at(frame, 1) == 0x01)
        & (n <= mask_limit(f))
        & (frame.len() == total_length(f, n))
}

#[tactic(auto, unfolding(crate::specs::Inventory::inventoried))]
pub(crate) fn inventory(card: Card, f: Flags, frame: &[u8]) -> Turn
    ensures { result ≡ inventoried card f frame.now }
{
    let n = byte_at(frame, length_place(f));
    if is_inventory(card, f, frame, n) && takes_part(card, f, frame) {
        joining(card, f, frame, n)
    } else {
        Turn::still(card)
    }
}
