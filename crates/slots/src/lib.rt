// Which UIDs a mask and a slot call: said once, for the card that answers and for the reader that asks.
#![tactic(auto)]

ghost use Rattle.std.specs.Prelude.{◌≡◌, ◌%◌, ◌/◌, ◌^◌, ltb};
ghost use Rattle.slots.specs.Fits.{mask_bytes, fits_mask, fits_slot};

// The low n bits of a number.
pub fn low_bits(v: u64, n: u8) -> u64
    ensures { result ≡ v % 2 ^ n }
{
    match 1u64.checked_shl(u32::from(n)) {
        Some(power) => v % power,
        None => v,
    }
}

// A number without its low n bits.
pub fn high_bits(v: u64, n: u8) -> u64
    ensures { result ≡ v / 2 ^ n }
{
    v.checked_shr(u32::from(n)).unwrap_or(0)
}

// Whether no bit of a mask stands at its length or above. A length of 64 or more has room for all.
pub fn is_below(mask: u64, n: u8) -> bool
    ensures { result ≡ ltb mask (2 ^ n) }
{
    high_bits(mask, n) == 0
}

// How many bytes hold a mask of n bits.
pub fn mask_bytes(n: u8) -> usize
    ensures { result ≡ mask_bytes n }
{
    usize::from(n).div_ceil(8)
}

// Whether a mask of n bits calls a UID.
pub fn fits_mask(uid: u64, n: u8, mask: u64) -> bool
    ensures { result ≡ fits_mask uid n mask }
{
    low_bits(uid, n) == mask
}

// Whether a slot above a mask of n bits calls a UID.
pub fn fits_slot(uid: u64, n: u8, mask: u64, slot: u8) -> bool
    ensures { result ≡ fits_slot uid n mask slot }
{
    fits_mask(uid, n, mask) && high_bits(uid, n) % 16 == u64::from(slot)
}
