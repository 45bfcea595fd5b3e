// What a track is made of: start, end, and four pairs to a byte, each a bit.
ghost use Rattle.std.specs.Prelude.{◌≡◌};
ghost use Rattle.coil.specs.Track.{half};
ghost use Rattle.coil.specs.Steps.{four_bits, flaws, first_of};

pub(crate) const START: u8 = 0x1d;

pub(crate) const END: u8 = 0xb8;

// The lowest four bits of v as pairs. Each goes to the later unit of its pair; where it is 1, both units of 10 are turned over.
pub(crate) fn half_of(v: u8) -> u8
    ensures { result ≡ half v }
{
    let x = ((v & 1) << 6) | ((v & 2) << 3) | (v & 4) | ((v & 8) >> 3);
    0xaa ^ (x | (x << 1))
}

// The four bits of a byte's pairs, the earliest lowest: the later unit of each.
pub(crate) fn bits_of(b: u8) -> u8
    ensures { result ≡ four_bits b }
{
    ((b >> 6) & 1) | ((b >> 3) & 2) | (b & 4) | ((b & 1) << 3)
}

// The flaws of a byte: 1 in the later unit of each pair whose units are alike, 11 or 00.
pub(crate) fn flaws_of(b: u8) -> u8
    ensures { result ≡ flaws b }
{
    (b ^ (b >> 1) ^ 0x55) & 0x55
}

// The first pair that the flaws of a byte name.
#[tactic(auto, unfolding(crate::specs::Steps::first_of))]
pub(crate) fn first_of(flaws: u8) -> usize
    ensures { result ≡ first_of flaws }
{
    if 64 <= flaws {
        return 0;
    }
    if 16 <= flaws {
        return 1;
    }
    if 4 <= flaws {
        return 2;
    }
    3
}
