// The functions that the rack board's C firmware calls, each a thin shell with the promise of the one it calls; the card's over the bytes of
// its record.
// include/espenknoten.h declares them.
#![tactic(auto)]

pub mod answers;
pub mod in_place;
pub mod shared;

ghost use Rattle.std.specs.Prelude.{◌≡◌, ◌≤◌, IfOk};
ghost use Rattle.refusals.specs.Number.{number_back};
ghost use Rattle.crc.specs.Check.{check_of};
ghost use Rattle.frames.specs.Frame.{Seals, is_sound};
ghost use Rattle.tracks.specs.Coder.{Codes};
ghost use Rattle.tracks.specs.Decoder.{Decodes};
ghost use Rattle.tracks.specs.Decoded.{IsKnown, decoded_back};
ghost use Rattle.coil.specs.Coder.{CodesAnswer};
ghost use Rattle.coil.specs.Decoder.{DecodesAnswer};
ghost use Rattle.coil.specs.Decoded.{IsKnown as IsReadable, decoded_back as coil_back};
ghost use Rattle.play.specs.Events.{length_of};
ghost use Rattle.board.specs.Calls.{frame_call, mark_call, off_call, Gives};
ghost use Rattle.board.specs.Steps.{Settles};
ghost use Rattle.board.specs.Version.{version};

use crate::in_place::minus;
use play::Served;
use refusals::Refusal;
use tracks::decoder::Decoded;

// The version, as the file VERSION and the header have it.
const MAJOR: u32 = 3;

const MINOR: u32 = 0;

const PATCH: u32 = 0;

pub fn ek_version() -> u32
    ensures { result ≡ version }
{
    65536 * MAJOR + 256 * MINOR + PATCH
}

pub fn ek_check(bytes: &[u8]) -> u16
    ensures { result ≡ check_of bytes.now }
{
    crc::check(bytes)
}

pub fn ek_is_sound(frame: &[u8]) -> bool
    ensures { result ≡ is_sound frame.now }
{
    frames::is_sound(frame)
}

pub fn ek_seal(buffer: &mut [u8], length: usize) -> i64
    ensures { Seals buffer.old length result buffer.new }
{
    back(frames::seal(buffer, length))
}

pub fn ek_code(frame: &[u8], coding: u32, track: &mut [u8]) -> i64
    ensures { Codes frame.now coding track.old result track.new }
{
    back(tracks::coder::code(frame, coding, track))
}

pub fn ek_decode(track: &[u8], frame: &mut [u8]) -> i64
    ensures { Decodes track.now frame.old result frame.new }
{
    back_of_track(tracks::decoder::decode(track, frame))
}

pub fn ek_coil_code(answer: &[u8], track: &mut [u8]) -> i64
    ensures { CodesAnswer answer.now track.old result track.new }
{
    back(coil::coder::code(answer, track))
}

pub fn ek_coil_decode(track: &[u8], answer: &mut [u8]) -> i64
    ensures { DecodesAnswer track.now answer.old result answer.new }
{
    back_of_coil(coil::decoder::decode(track, answer))
}

// What C is told of a length or a refusal: the length, or minus the refusal's number.
#[tactic(auto, unfolding(refusals::specs::Number::number_back))]
pub(crate) fn back(length: Result<usize, Refusal>) -> i64
    requires { IfOk length (λ n. n ≤ 9223372036854775807) }
    ensures { result ≡ number_back length }
{
    match length {
        Ok(length) => length as i64,
        Err(refusal) => minus(refusal),
    }
}

// What C is told of a track: 65,536 times the kind, which is the coding or 2 for a slot mark, and the frame's length; or minus the refusal's number.
#[tactic(auto, unfolding(tracks::specs::Decoded::decoded_back, tracks::specs::Decoder::told, frames::specs::Frame::longest))]
fn back_of_track(decoded: Result<Decoded, Refusal>) -> i64
    requires { IfOk decoded IsKnown }
    ensures { result ≡ decoded_back decoded }
{
    match decoded {
        Ok(Decoded::Frame { coding, length }) => 65536 * i64::from(coding) + length as i64,
        Ok(Decoded::SlotMark) => 131072,
        Err(undecoded) => minus(undecoded),
    }
}

// What C is told of an answer's track: 131,072 times the kind and a number, kind 0 an answer and its length, 1 a clash and 2 a lost bit with the place of the first such
// bit; or minus the refusal's number.
#[tactic(auto, unfolding(coil::specs::Decoded::decoded_back, coil::specs::Decoder::told))]
fn back_of_coil(decoded: Result<coil::decoder::Decoded, Refusal>) -> i64
    requires { IfOk decoded IsReadable }
    ensures { result ≡ coil_back decoded }
{
    match decoded {
        Ok(coil::decoder::Decoded::Answer(length)) => length as i64,
        Ok(coil::decoder::Decoded::Clash(place)) => (131072 + place) as i64,
        Ok(coil::decoder::Decoded::Lost(place)) => (262144 + place) as i64,
        Err(unread) => minus(unread),
    }
}

// What C is told of an event. Where it is served, the next record is written.
fn settle(served: Result<Served, Refusal>, bytes: &mut [u8]) -> i64
    requires { length_of served ≤ 9223372036854775807 }
    ensures { Settles served bytes.old result bytes.new }
{
    match served {
        Ok(served) => {
            // A card that is served was read from forty bytes, so they take the next one.
            let _ = record::write(served.card, bytes);
            served.length as i64
        }
        Err(refused) => minus(refused),
    }
}

pub fn ek_card_frame(
    bytes: &mut [u8],
    frame: &[u8],
    memory: &mut [u8],
    locks: &mut [u8],
    answer: &mut [u8],
) -> i64
    ensures { Gives (frame_call bytes.old frame.now memory.old locks.old answer.old) result bytes.new memory.new locks.new answer.new }
{
    let card = record::read(bytes);
    let served = play::events::frame(card, frame, memory, locks, answer);
    settle(served, bytes)
}

pub fn ek_card_mark(bytes: &mut [u8], memory: &[u8], locks: &[u8], answer: &mut [u8]) -> i64
    ensures { Gives (mark_call bytes.old memory.now locks.now answer.old) result bytes.new memory.now locks.now answer.new }
{
    let card = record::read(bytes);
    let served = play::events::mark(card, memory, locks, answer);
    settle(served, bytes)
}

pub fn ek_card_power_off(bytes: &mut [u8], memory: &[u8], locks: &[u8], answer: &[u8]) -> i64
    ensures { Gives (off_call bytes.old memory.now locks.now answer.now) result bytes.new memory.now locks.now answer.now }
{
    let card = record::read(bytes);
    let served = play::events::power_off(card, memory, locks, answer);
    settle(served, bytes)
}
