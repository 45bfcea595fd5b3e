// From an answer to its track.
ghost use Rattle.std.specs.Prelude.{◌≡◌, ◌+◌, ◌*◌, ◌≤◌, length};
ghost use Rattle.lent.specs.Lent.{placed, over};
ghost use Rattle.refusals.specs.Number.{number_back};
ghost use Rattle.coil.specs.Coder.{CodesAnswer};
ghost use Rattle.coil.specs.Track.{pulses, answer_track, answer_track_length};

use crate::pulse::{END, START, half_of};
use frames::{LONGEST_ANSWER, SHORTEST_ANSWER};
use refusals::Refusal;

// The bytes of an answer between start and end.
fn put_all(answer: &[u8], track: &mut [u8])
    requires { 1 + 2 * length answer.now ≤ length track.old }
    ensures { track.new ≡ placed 1 (pulses answer.now) track.old }
{
    for (i, &v) in answer.iter().enumerate() {
        track[1 + 2 * i] = half_of(v);
        track[2 + 2 * i] = half_of(v >> 4);
    }
}

// The whole track of an answer, whose length is n.
fn put_track(answer: &[u8], track: &mut [u8], n: usize)
    requires { (n ≡ answer_track_length (length answer.now)) × (n ≤ length track.old) }
    ensures { track.new ≡ over (answer_track answer.now) track.old }
{
    track[0] = START;
    put_all(answer, track);
    track[n - 1] = END;
}

// The answer's track at the start of the room that is lent. Returns the track's length.
pub fn code(answer: &[u8], track: &mut [u8]) -> Result<usize, Refusal>
    ensures { CodesAnswer answer.now track.old (number_back result) track.new }
{
    if answer.len() < SHORTEST_ANSWER || LONGEST_ANSWER < answer.len() {
        return Err(Refusal::Unfit);
    }
    let n = 2 + 2 * answer.len();
    if track.len() < n {
        return Err(Refusal::Room);
    }
    put_track(answer, track, n);
    Ok(n)
}
