// From a frame to its track.
ghost use Rattle.std.specs.Prelude.{◌≡◌, ◌+◌, ◌*◌, ◌≤◌, length};
ghost use Rattle.lent.specs.Lent.{placed, over};
ghost use Rattle.refusals.specs.Number.{number_back};
ghost use Rattle.tracks.specs.Coder.{Codes};
ghost use Rattle.tracks.specs.Track.{blank, quad, long, coded, pulses, unit, track_of, track_length};

use crate::pulse::{END, pattern_of, start_of, unit_of};
use frames::LONGEST;
use refusals::Refusal;

// 1 of 4: a byte as its four pairs, the lowest first.
fn put_quad(track: &mut [u8], at: usize, v: u8)
    requires { at + 4 ≤ length track.old }
    ensures { track.new ≡ placed at (quad v) track.old }
{
    let a = pattern_of(v);
    let b = pattern_of(v >> 2);
    let c = pattern_of(v >> 4);
    let d = pattern_of(v >> 6);
    track[at] = a;
    track[at + 1] = b;
    track[at + 2] = c;
    track[at + 3] = d;
}

// A whole unit of bytes 00.
fn clear(track: &mut [u8], at: usize)
    requires { at + 64 ≤ length track.old }
    ensures { track.new ≡ placed at blank track.old }
{
    track[at..at + 64].fill(0);
}

// 1 of 256: a byte as 64, of which one is not 00.
fn put_long(track: &mut [u8], at: usize, v: u8)
    requires { at + 64 ≤ length track.old }
    ensures { track.new ≡ placed at (long v) track.old }
{
    clear(track, at);
    let place = usize::from(v >> 2);
    track[at + place] = pattern_of(v);
}

fn put(track: &mut [u8], coding: u32, at: usize, v: u8)
    requires { at + unit coding ≤ length track.old }
    ensures { track.new ≡ placed at (coded coding v) track.old }
{
    if coding == 0 {
        put_quad(track, at, v);
    } else {
        put_long(track, at, v);
    }
}

// The bytes of a frame between start and end.
fn put_all(frame: &[u8], coding: u32, track: &mut [u8])
    requires { 1 + unit coding * length frame.now ≤ length track.old }
    ensures { track.new ≡ placed 1 (pulses coding frame.now) track.old }
{
    let width = unit_of(coding);
    for (i, &v) in frame.iter().enumerate() {
        put(track, coding, 1 + width * i, v);
    }
}

// The whole track of a frame, whose length is n.
fn put_track(frame: &[u8], coding: u32, track: &mut [u8], n: usize)
    requires { (n ≡ track_length coding (length frame.now)) × (n ≤ length track.old) }
    ensures { track.new ≡ over (track_of coding frame.now) track.old }
{
    track[0] = start_of(coding);
    put_all(frame, coding, track);
    track[n - 1] = END;
}

// The frame's track at the start of the room that is lent. Returns the track's length.
pub fn code(frame: &[u8], coding: u32, track: &mut [u8]) -> Result<usize, Refusal>
    ensures { Codes frame.now coding track.old (number_back result) track.new }
{
    if LONGEST < frame.len() || 1 < coding {
        return Err(Refusal::Unfit);
    }
    let n = 2 + unit_of(coding) * frame.len();
    if track.len() < n {
        return Err(Refusal::Room);
    }
    put_track(frame, coding, track, n);
    Ok(n)
}
