// From a track to its answer. The whole track is looked at before the first byte is written.
ghost use Rattle.std.specs.Prelude.{◌≡◌, true, false, ℕ, ◌+◌, ◌-◌, ◌*◌, ◌/◌, ◌≤◌, ◌<◌, length, get_or, IfOk};
ghost use Rattle.lent.specs.Lent.{over, placed};
ghost use Rattle.coil.specs.Decoder.{is_framed, pair_at, is_bad, first_from, bytes_from};
ghost use Rattle.coil.specs.Decoded.{decoded_back, DecodesAnswerTo};
ghost use Rattle.coil.specs.Steps.{flaws, found_in, bad_bit};

use crate::pulse::{END, START, bits_of, first_of, flaws_of};
use frames::{LONGEST_ANSWER, SHORTEST_ANSWER};
use refusals::Refusal;

// What a track tells: an answer, of which the length is given, or the place of the first bad bit, which is a clash or lost.
#[derive(Clone, Copy, Debug, PartialEq, Eq)]
pub enum Decoded {
    Answer(usize),
    Clash(usize),
    Lost(usize),
}

// Whether start, end and length are those of an answer's track.
fn is_framed(track: &[u8]) -> bool
    ensures { result ≡ is_framed track.now }
{
    let n = track.len();
    if n < 2 {
        return false;
    }
    let count = (n - 2) / 2;
    (n == 2 + 2 * count)
        & (SHORTEST_ANSWER <= count)
        & (count <= LONGEST_ANSWER)
        & (frames::byte_at(track, 0) == START)
        & (frames::byte_at(track, n - 1) == END)
}

// Whether the sixteen bytes at a place have no flaw. Their flaws, put over each other, are asked in one test.
fn sixteen_good(track: &[u8], at: usize) -> bool
    requires { at + 16 ≤ length track.now }
    ensures { result ≡ true → (k : ℕ) → k < 16 → flaws (get_or track.now (at + k) 0) ≡ 0 }
{
    let mut all = 0;
    for &b in &track[at..at + 16] {
        all |= flaws_of(b);
    }
    all == 0
}

// Of the n bytes after the start, how many are passed sixteen at a time: no bit of these is bad.
fn good_bytes(track: &[u8], n: usize) -> usize
    requires { 1 + n ≤ length track.now }
    ensures within { result ≤ n }
    ensures passed { (j : ℕ) → j < 4 * result → is_bad track.now j ≡ false }
{
    for i in 0..n / 16 {
        if !sixteen_good(track, 1 + 16 * i) {
            return 16 * i;
        }
    }
    n / 16 * 16
}

// The first bad bit of the n bytes after the start.
fn first_bad(track: &[u8], n: usize) -> Option<usize>
    requires { (1 + n ≤ length track.now) × (n ≤ 16902) }
    ensures { result ≡ found_in (4 * n) (first_from (is_bad track.now) 0 (4 * n)) }
{
    for i in good_bytes(track, n)..n {
        let flaws = flaws_of(track[1 + i]);
        if flaws != 0 {
            return Some(4 * i + first_of(flaws));
        }
    }
    None
}

// The two units of bit i.
fn pair_at(track: &[u8], i: usize) -> u8
    requires { 1 + i / 4 < length track.now }
    ensures { result ≡ pair_at track.now i }
{
    let b = track[1 + i / 4];
    (b >> (6 - 2 * (i % 4))) & 3
}

// Writes sixteen bytes at place i, from the thirty-two of the track at a place. Their bits are gathered first: so the compiler takes many bytes of
// the track at once.
fn put_sixteen(track: &[u8], at: usize, answer: &mut [u8], i: usize)
    requires at_value { (at ≡ 1 + 2 * i) × (at + 32 ≤ length track.now) }
    requires i_in_bounds { i + 16 ≤ length answer.old }
    ensures { answer.new ≡ placed i (bytes_from track.now i 16) answer.old }
{
    let mut fours = [0u8; 32];
    for (k, four) in fours.iter_mut().enumerate() {
        *four = bits_of(track[at + k]);
    }
    for (j, byte) in answer[i..i + 16].iter_mut().enumerate() {
        *byte = fours[2 * j] + 16 * fours[2 * j + 1];
    }
}

// Writes n bytes.
fn put_bytes(track: &[u8], n: usize, answer: &mut [u8])
    requires n_in_bounds { 1 + 2 * n ≤ length track.now }
    requires n_in_bounds_2 { n ≤ length answer.old }
    ensures { answer.new ≡ over (bytes_from track.now 0 n) answer.old }
{
    for i in 0..n / 16 {
        put_sixteen(track, 1 + 32 * i, answer, 16 * i);
    }
    for k in n / 16 * 16..n {
        let low = bits_of(track[1 + 2 * k]);
        let high = bits_of(track[2 + 2 * k]);
        answer[k] = low + 16 * high;
    }
}

// What a bad bit is: a clash, or else lost.
#[tactic(auto, unfolding(crate::specs::Steps::bad_bit))]
fn bad_bit(track: &[u8], k: usize) -> Decoded
    requires { 1 + k / 4 < length track.now }
    ensures { result ≡ bad_bit track.now k }
{
    if pair_at(track, k) == 3 {
        Decoded::Clash(k)
    } else {
        Decoded::Lost(k)
    }
}

// The answer of a track at the start of the room that is lent.
pub fn decode(track: &[u8], answer: &mut [u8]) -> Result<Decoded, Refusal>
    ensures { DecodesAnswerTo track.now answer.old result answer.new }
{
    if answer.len() < LONGEST_ANSWER {
        return Err(Refusal::Room);
    }
    if !is_framed(track) {
        return Err(Refusal::NoAnswerTrack);
    }
    let n = (track.len() - 2) / 2;
    if let Some(k) = first_bad(track, 2 * n) {
        return Ok(bad_bit(track, k));
    }
    put_bytes(track, n, answer);
    Ok(Decoded::Answer(n))
}
