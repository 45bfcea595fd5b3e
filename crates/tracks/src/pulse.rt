// What a track is made of: start, end, and the pause pattern of a bit pair. A pair picks one of four places: bit 6 less twice the pair.
ghost use Rattle.std.specs.Prelude.{◌≡◌, ◌%◌};
ghost use Rattle.tracks.specs.Track.{start, unit, pattern};
ghost use Rattle.tracks.specs.Steps.{pair_of};

pub(crate) const END: u8 = 0x20;

pub(crate) fn start_of(coding: u32) -> u8
    ensures { result ≡ start coding }
{
    if coding == 0 { 0x84 } else { 0x81 }
}

// How many track bytes a frame's byte takes.
pub(crate) fn unit_of(coding: u32) -> usize
    ensures { result ≡ unit coding }
{
    if coding == 0 { 4 } else { 64 }
}

// The pattern of the lowest pair of v, picked by the pair's high bit and shifted on by its low bit. No shift by a number that varies:
// it would keep the compiler from coding several bytes at once.
pub(crate) fn pattern_of(v: u8) -> u8
    ensures { result ≡ pattern (v % 4) }
{
    let x: u8 = if v & 2 == 0 { 0x40 } else { 0x04 };
    if v & 1 == 0 { x } else { x >> 2 }
}

// The pair whose pattern is b, or 4 for none: a pause at bit 0 or 2 makes its high bit 1, one at bit 0 or 4 its low bit.
// A number: the definition has 4 for none too, and four pairs are joined by one test.
pub(crate) fn pair_of(b: u8) -> u8
    ensures { result ≡ pair_of b }
{
    let high = (b | (b >> 2)) & 1;
    let low = (b | (b >> 4)) & 1;
    let pair = (high << 1) | low;
    if pattern_of(pair) == b { pair } else { 4 }
}
