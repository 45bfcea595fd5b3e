// The lines of the script: the one that tells the card, the events, and the words that show it.
ghost use Rattle.io.specs.Counts.{IsPrefixLen};

use crate::ask::Ask;
use crate::tag::{Event, Tag};
use crate::told::Text;
use card::{Card, Held, Mode, Sequence};
use frames::LONGEST_ANSWER;
use input::Told;

// Why a script ends before its last line: one that can't be read, or a read or a write that failed.
#[derive(Clone, Copy, Debug, PartialEq, Eq)]
pub(crate) enum Stop {
    BadLine,
    Failed(Told),
}

impl From<Told> for Stop {
    fn from(told: Told) -> Stop {
        Stop::Failed(told)
    }
}

// What a line asks for once there is a card.
#[derive(Clone, Copy)]
enum Order<'a> {
    Play(Event<'a>),
    Ask(Ask<'a>),
    Memory,
    Locks,
}

// Two and four digits as a number.
pub(crate) fn pair(line: &[u8], at: usize) -> u8 {
    digits::number(line, at, 2) as u8
}

fn two_pairs(line: &[u8], at: usize) -> u32 {
    digits::number(line, at, 4) as u32
}

// `card UID BLOCKS SIZE AFI DSFID IC`: such a card, in Ready.
fn card_of(line: &[u8]) -> Option<Card> {
    if !digits::has_form(line, b"card XXXXXXXXXXXXXXXX XXXX XX XX XX XX") {
        return None;
    }
    Some(Card {
        blocks: two_pairs(line, 22),
        size: u32::from(pair(line, 27)),
        uid: digits::number(line, 5, 16),
        afi: pair(line, 30),
        dsfid: pair(line, 33),
        afi_locked: false,
        dsfid_locked: false,
        ic_reference: pair(line, 36),
        mode: Mode::Ready,
        sequence: Sequence::Idle,
        held: Held::Free,
    })
}

// What follows a form that a line begins with.
pub(crate) fn after<'a>(form: &[u8], line: &'a [u8]) -> Option<&'a [u8]> {
    let (start, rest) = line.split_at_checked(form.len())?;
    digits::has_form(start, form).then_some(rest)
}

// The row of pairs after a word.
fn row_after<'a>(word: &[u8], line: &'a [u8]) -> Option<&'a [u8]> {
    after(word, line).filter(|row| digits::is_row(row))
}

// Puts the bytes of a row into a buffer, and returns how many they are. There is room for those of any line.
pub(crate) fn read_row(row: &[u8], buffer: &mut [u8]) -> usize
    ensures { IsPrefixLen result buffer.new }
{
    let n = digits::read_row(row, buffer).unwrap_or(0);
    n.min(buffer.len())
}

fn order_of<'a>(line: &'a [u8], frame: &'a mut [u8]) -> Option<Order<'a>> {
    if let Some(row) = row_after(b"frame", line) {
        let n = read_row(row, frame);
        return Some(Order::Play(Event::Frame(&frame[..n])));
    }
    if let Some(row) = row_after(b"seal", line) {
        let n = read_row(row, frame);
        let sealed = frames::seal(frame, n).unwrap_or(0).min(frame.len());
        return Some(Order::Play(Event::Frame(&frame[..sealed])));
    }
    if let Some(ask) = Ask::of(line) {
        return Some(Order::Ask(ask));
    }
    match line {
        b"mark" => Some(Order::Play(Event::Mark)),
        b"off" => Some(Order::Play(Event::Off)),
        b"memory" => Some(Order::Memory),
        b"locks" => Some(Order::Locks),
        _ => None,
    }
}

// Plays an event, and tells the answer to it and the record after it.
fn play(rt: &HostRuntime, event: Event, tag: &mut Tag, text: &mut Text) -> Result<(), Told> {
    let mut room = [0u8; LONGEST_ANSWER];
    text.put_answer(tag.play(event, &mut room));
    text.tell_record(rt, tag.card())
}

// Tells bytes, so many on a line.
fn show(rt: &HostRuntime, size: usize, bytes: &[u8], text: &mut Text) -> Result<(), Told> {
    text.put_blocks(size, bytes);
    text.write(rt)
}

// Does what a line orders, and tells the line and what came of it.
fn obey(rt: &HostRuntime, line: &[u8], tag: &mut Tag, text: &mut Text) -> Result<(), Stop> {
    let mut frame = [0u8; 86];
    let order = order_of(line, &mut frame).ok_or(Stop::BadLine)?;
    text.begin(line);
    match order {
        Order::Play(event) => play(rt, event, tag, text)?,
        Order::Ask(ask) => ask.play(rt, tag, text)?,
        Order::Memory => show(rt, tag.size(), tag.memory(), text)?,
        Order::Locks => show(rt, 256, tag.locks(), text)?,
    }
    Ok(())
}

// Hears a line. The first tells the tag; one that is empty or starts with # is passed over.
pub(crate) fn hear(
    rt: &HostRuntime,
    line: &[u8],
    tag: &mut Option<Tag>,
    text: &mut Text,
) -> Result<(), Stop> {
    if line.len() > 256 {
        return Err(Stop::BadLine);
    }
    if matches!(line, [] | [b'#', ..]) {
        return Ok(());
    }
    if let Some(tag) = tag {
        return obey(rt, line, tag, text);
    }
    let card = card_of(line).ok_or(Stop::BadLine)?;
    *tag = Some(Tag::new(card));
    Ok(())
}
