// What the rack board's C firmware links: each call of include/espenknoten.h, which hands on to the function of its name in board and says its promise again.
#![tactic(auto)]

ghost use Rattle.std.specs.Prelude.{[], ◌≡◌};
ghost use Rattle.crc.specs.Check.{check_of};
ghost use Rattle.frames.specs.Frame.{Seals, is_sound};
ghost use Rattle.tracks.specs.Coder.{Codes};
ghost use Rattle.tracks.specs.Decoder.{Decodes};
ghost use Rattle.coil.specs.Coder.{CodesAnswer};
ghost use Rattle.coil.specs.Decoder.{DecodesAnswer};
ghost use Rattle.board.specs.Calls.{Gives, frame_call, mark_call, off_call};
ghost use Rattle.board.specs.Version.{version};
ghost use Rattle.reader.specs.Request.{Makes};
ghost use Rattle.reader.specs.Reading.{reading};
ghost use Rattle.board.specs.Answers.{ReadsByValue};
ghost use Rattle.walk.specs.Record.{started};
ghost use Rattle.walk.specs.Hear.{hearing};
ghost use Rattle.walk.specs.Ask.{asking};
ghost use Rattle.walk.specs.declared.Kind.TheVariants.{Bytes, Clash, Silence};
ghost use Rattle.board.specs.Walked.{AsksInPlace, HearsInPlace};
ghost use Rattle.walk.specs.Shared.{shared_hearing, starting};
ghost use Rattle.board.specs.Shared.{HearsSharedInPlace, StartsInPlace};

use board::answers::Shown;
use reader::Request;
use walk::Walk;

#[unsafe(no_mangle)]
pub extern "C" fn ek_version() -> u32
    ensures { result ≡ version }
{
    board::ek_version()
}

#[unsafe(no_mangle)]
pub extern "C" fn ek_check(bytes: &[u8]) -> u16
    ensures { result ≡ check_of bytes.now }
{
    board::ek_check(bytes)
}

#[unsafe(no_mangle)]
pub extern "C" fn ek_is_sound(frame: &[u8]) -> bool
    ensures { result ≡ is_sound frame.now }
{
    board::ek_is_sound(frame)
}

#[unsafe(no_mangle)]
pub extern "C" fn ek_seal(buffer: &mut [u8], length: usize) -> i64
    ensures { Seals buffer.old length result buffer.new }
{
    board::ek_seal(buffer, length)
}

#[unsafe(no_mangle)]
pub extern "C" fn ek_code(frame: &[u8], coding: u32, track: &mut [u8]) -> i64
    ensures { Codes frame.now coding track.old result track.new }
{
    board::ek_code(frame, coding, track)
}

#[unsafe(no_mangle)]
pub extern "C" fn ek_decode(track: &[u8], frame: &mut [u8]) -> i64
    ensures { Decodes track.now frame.old result frame.new }
{
    board::ek_decode(track, frame)
}

#[unsafe(no_mangle)]
pub extern "C" fn ek_coil_code(answer: &[u8], track: &mut [u8]) -> i64
    ensures { CodesAnswer answer.now track.old result track.new }
{
    board::ek_coil_code(answer, track)
}

#[unsafe(no_mangle)]
pub extern "C" fn ek_coil_decode(track: &[u8], answer: &mut [u8]) -> i64
    ensures { DecodesAnswer track.now answer.old result answer.new }
{
    board::ek_coil_decode(track, answer)
}

#[unsafe(no_mangle)]
pub extern "C" fn ek_card_frame(
    bytes: &mut [u8],
    frame: &[u8],
    memory: &mut [u8],
    locks: &mut [u8],
    answer: &mut [u8],
) -> i64
    ensures { Gives (frame_call bytes.old frame.now memory.old locks.old answer.old) result bytes.new memory.new locks.new answer.new }
{
    board::ek_card_frame(bytes, frame, memory, locks, answer)
}

#[unsafe(no_mangle)]
pub extern "C" fn ek_card_mark(
    bytes: &mut [u8],
    memory: &[u8],
    locks: &[u8],
    answer: &mut [u8],
) -> i64
    ensures { Gives (mark_call bytes.old memory.now locks.now answer.old) result bytes.new memory.now locks.now answer.new }
{
    board::ek_card_mark(bytes, memory, locks, answer)
}

#[unsafe(no_mangle)]
pub extern "C" fn ek_card_power_off(
    bytes: &mut [u8],
    memory: &[u8],
    locks: &[u8],
    answer: &[u8],
) -> i64
    ensures { Gives (off_call bytes.old memory.now locks.now answer.now) result bytes.new memory.now locks.now answer.now }
{
    board::ek_card_power_off(bytes, memory, locks, answer)
}

#[unsafe(no_mangle)]
pub extern "C" fn ek_make(request: Request, written: &[u8], frame: &mut [u8]) -> i64
    ensures { Makes request written.now frame.old result frame.new }
{
    board::answers::ek_make(request, written, frame)
}

#[unsafe(no_mangle)]
pub extern "C" fn ek_read(
    request: Request,
    answer: &[u8],
    blocks: &mut [u8],
    locks: &mut [u8],
) -> Shown
    ensures { ReadsByValue (reading request answer.now blocks.old locks.old) result blocks.new locks.new }
{
    board::answers::ek_read(request, answer, blocks, locks)
}

#[unsafe(no_mangle)]
pub extern "C" fn ek_walk_start(walk: &mut Walk, family: u16)
    ensures { walk.new ≡ started family }
{
    board::in_place::ek_walk_start(walk, family);
}

#[unsafe(no_mangle)]
pub extern "C" fn ek_walk_hear_silence(walk: &mut Walk, list: &mut [u64]) -> i64
    ensures { HearsInPlace (hearing walk.old Silence [] list.old) result walk.new list.new }
{
    board::in_place::ek_walk_hear_silence(walk, list)
}

#[unsafe(no_mangle)]
pub extern "C" fn ek_walk_hear_clash(walk: &mut Walk, list: &mut [u64]) -> i64
    ensures { HearsInPlace (hearing walk.old Clash [] list.old) result walk.new list.new }
{
    board::in_place::ek_walk_hear_clash(walk, list)
}

#[unsafe(no_mangle)]
pub extern "C" fn ek_walk_hear_bytes(walk: &mut Walk, bytes: &[u8], list: &mut [u64]) -> i64
    ensures { HearsInPlace (hearing walk.old Bytes bytes.now list.old) result walk.new list.new }
{
    board::in_place::ek_walk_hear_bytes(walk, bytes, list)
}

#[unsafe(no_mangle)]
pub extern "C" fn ek_walk_ask(walk: &Walk, room: &mut [u8]) -> i64
    ensures { AsksInPlace (asking walk.now room.old) result room.new }
{
    board::in_place::ek_walk_ask(walk, room)
}

#[unsafe(no_mangle)]
pub extern "C" fn ek_shared_start(walk: &mut Walk, rack: u32, family: u16, owners: &mut [u8]) -> i64
    ensures { StartsInPlace (starting walk.old rack family owners.old) result walk.new owners.new }
{
    board::shared::ek_shared_start(walk, rack, family, owners)
}

#[unsafe(no_mangle)]
pub extern "C" fn ek_shared_hear_silence(
    walk: &mut Walk,
    rack: u32,
    rows: &mut [u64],
    owners: &mut [u8],
) -> i64
    ensures { HearsSharedInPlace (shared_hearing walk.old rack Silence [] rows.old owners.old) result walk.new rows.new owners.new }
{
    board::shared::ek_shared_hear_silence(walk, rack, rows, owners)
}

#[unsafe(no_mangle)]
pub extern "C" fn ek_shared_hear_clash(
    walk: &mut Walk,
    rack: u32,
    rows: &mut [u64],
    owners: &mut [u8],
) -> i64
    ensures { HearsSharedInPlace (shared_hearing walk.old rack Clash [] rows.old owners.old) result walk.new rows.new owners.new }
{
    board::shared::ek_shared_hear_clash(walk, rack, rows, owners)
}

#[unsafe(no_mangle)]
pub extern "C" fn ek_shared_hear_bytes(
    walk: &mut Walk,
    rack: u32,
    bytes: &[u8],
    rows: &mut [u64],
    owners: &mut [u8],
) -> i64
    ensures { HearsSharedInPlace (shared_hearing walk.old rack Bytes bytes.now rows.old owners.old) result walk.new rows.new owners.new }
{
    board::shared::ek_shared_hear_bytes(walk, rack, bytes, rows, owners)
}
