// From a track to its frame. The whole track is looked at before the first byte is written.
ghost use Rattle.std.specs.Prelude.{◌≡◌, true, ℕ, ◌+◌, ◌-◌, ◌*◌, ◌≤◌, ◌<◌, length, get_or, take, drop, IfOk};
ghost use Rattle.lent.specs.Lent.{over};
ghost use Rattle.tracks.specs.Track.{unit};
ghost use Rattle.tracks.specs.Steps.{joined, zeros, lone, byte_of, byte_or_none, are_bytes, bytes_of, length_as, is_slot_mark};
ghost use Rattle.tracks.specs.Decoded.{DecodesTo};

use crate::pulse::{END, pair_of, start_of, unit_of};
use frames::LONGEST;
use refusals::Refusal;

// What a track stands for: a frame, of which its coding and length are told, or a slot mark.
#[derive(Clone, Copy, Debug, PartialEq, Eq)]
pub enum Decoded {
    Frame { coding: u32, length: usize },
    SlotMark,
}

// Four pairs joined, the lowest first.
fn join(a: u8, b: u8, c: u8, d: u8) -> Option<u8>
    ensures { result ≡ byte_or_none (joined a b c d) }
{
    if (a < 4) & (b < 4) & (c < 4) & (d < 4) {
        Some(a + 4 * b + 16 * c + 64 * d)
    } else {
        None
    }
}

// 1 of 4: the byte of four track bytes. The last is read first: else the compiler shares the read of the first with 1 of 256 and has
// to put the four together again.
fn quad_at(track: &[u8], at: usize) -> Option<u8>
    requires { at + 4 ≤ length track.now }
    ensures { result ≡ byte_or_none (byte_of 0 (take 4 (drop at track.now))) }
{
    let d = pair_of(track[at + 3]);
    let c = pair_of(track[at + 2]);
    let b = pair_of(track[at + 1]);
    let a = pair_of(track[at]);
    join(a, b, c, d)
}

// Whether the eight bytes at a place are all 00. Put over each other, they are asked in one test.
fn eight_blank(track: &[u8], at: usize) -> bool
    requires { at + 8 ≤ length track.now }
    ensures { result ≡ true → (k : ℕ) → k < 8 → get_or track.now (at + k) 0 ≡ 0 }
{
    let mut all = 0;
    for &b in &track[at..at + 8] {
        all |= b;
    }
    all == 0
}

// Of the bytes 00 that the n bytes at a place begin with, how many are passed eight at a time. An index: over 0..n / 8 the compiler reads the
// first byte past them once more, and 1 of 256 took 3 to 5 % longer.
fn blanks_at(track: &[u8], at: usize, n: usize) -> usize
    requires { at + n ≤ length track.now }
    ensures within { result ≤ n }
    ensures passed { result + zeros (take (n - result) (drop (at + result) track.now)) ≡ zeros (take n (drop at track.now)) }
{
    let mut i = 0;
    while 8 <= n - i {
        if !eight_blank(track, at + i) {
            return i;
        }
        i += 8;
    }
    i
}

// How many of the n bytes at a place are 00 before the first that is not.
fn zeros_at(track: &[u8], at: usize, n: usize) -> usize
    requires { at + n ≤ length track.now }
    ensures { result ≡ zeros (take n (drop at track.now)) }
{
    for i in blanks_at(track, at, n)..n {
        if track[at + i] != 0 {
            return i;
        }
    }
    n
}

// 1 of 256: the byte of 64 track bytes, of which one is not 00.
fn lone_at(track: &[u8], at: usize) -> Option<u8>
    requires { at + 64 ≤ length track.now }
    ensures { result ≡ byte_or_none (lone (take 64 (drop at track.now))) }
{
    let place = zeros_at(track, at, 64);
    if 64 <= place {
        return None;
    }
    let pair = pair_of(track[at + place]);
    let rest = 63 - place;
    if (pair < 4) & (zeros_at(track, at + place + 1, rest) == rest) {
        Some((4 * place) as u8 + pair)
    } else {
        None
    }
}

// The byte of the unit at a place.
fn byte_at(track: &[u8], coding: u32, at: usize) -> Option<u8>
    requires { at + unit coding ≤ length track.now }
    ensures { result ≡ byte_or_none (byte_of coding (take (unit coding) (drop at track.now))) }
{
    if coding == 0 {
        quad_at(track, at)
    } else {
        lone_at(track, at)
    }
}

// Whether n units stand for a byte each.
fn all_bytes(track: &[u8], coding: u32, n: usize) -> bool
    requires { 1 + unit coding * n ≤ length track.now }
    ensures { result ≡ are_bytes coding n (drop 1 track.now) }
{
    let width = unit_of(coding);
    for i in 0..n {
        if byte_at(track, coding, 1 + width * i).is_none() {
            return false;
        }
    }
    true
}

// Writes the bytes of n units.
fn put_bytes(track: &[u8], coding: u32, n: usize, frame: &mut [u8])
    requires n_in_bounds { 1 + unit coding * n ≤ length track.now }
    requires track_value { are_bytes coding n (drop 1 track.now) ≡ true }
    requires n_in_bounds_2 { n ≤ length frame.old }
    ensures { frame.new ≡ over (bytes_of coding n (drop 1 track.now)) frame.old }
{
    let width = unit_of(coding);
    for (i, byte) in frame[..n].iter_mut().enumerate() {
        *byte = byte_at(track, coding, 1 + width * i).unwrap();
    }
}

// The length of the frame whose track this is in a coding.
fn length_as(track: &[u8], coding: u32) -> Option<usize>
    ensures { result ≡ length_as coding track.now }
{
    let n = track.len();
    if n < 2 {
        return None;
    }
    let width = unit_of(coding);
    let count = (n - 2) / width;
    let framed = (n == 2 + width * count)
        & (frames::byte_at(track, 0) == start_of(coding))
        & (count <= LONGEST)
        & (frames::byte_at(track, n - 1) == END);
    if framed && all_bytes(track, coding, count) {
        Some(count)
    } else {
        None
    }
}

fn is_slot_mark(track: &[u8]) -> bool
    ensures { result ≡ is_slot_mark track.now }
{
    track.len() == 1 && track[0] == END
}

// The frame of a track at the start of the room that is lent.
pub fn decode(track: &[u8], frame: &mut [u8]) -> Result<Decoded, Refusal>
    ensures { DecodesTo track.now frame.old result frame.new }
{
    if frame.len() < LONGEST {
        return Err(Refusal::Room);
    }
    if is_slot_mark(track) {
        return Ok(Decoded::SlotMark);
    }
    if let Some(length) = length_as(track, 0) {
        put_bytes(track, 0, length, frame);
        return Ok(Decoded::Frame { coding: 0, length });
    }
    if let Some(length) = length_as(track, 1) {
        put_bytes(track, 1, length, frame);
        return Ok(Decoded::Frame { coding: 1, length });
    }
    Err(Refusal::NoTrack)
}
