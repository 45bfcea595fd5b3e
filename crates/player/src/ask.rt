// `ask [UID | selected] [option] COMMAND [pair ...]`: a request is made, played, and what is read of its answer told.
use crate::script::{after, pair, read_row};
use crate::tag::{Event, Tag};
use crate::told::Text;
use frames::LONGEST_ANSWER;
use input::Told;
use reader::Request;
use refusals::Refusal;

// Whom a request is for.
#[derive(Clone, Copy)]
enum To {
    All,
    One(u64),
    Selected,
}

// What a line asks for. The first pair of the row is the command.
#[derive(Clone, Copy)]
pub(crate) struct Ask<'a> {
    to: To,
    option: bool,
    row: &'a [u8],
}

// Whom it is for, and the rest of the line.
fn to_of(line: &[u8]) -> (To, &[u8]) {
    if let Some(rest) = after(b" XXXXXXXXXXXXXXXX", line) {
        return (To::One(digits::number(line, 1, 16)), rest);
    }
    match after(b" selected", line) {
        Some(rest) => (To::Selected, rest),
        None => (To::All, line),
    }
}

// Whether a command has so many pairs after it. 21 has its data too; one that can't be asked for has any, and is refused.
fn has_pairs(command: u8, n: usize) -> bool {
    match command {
        0x21 => n >= 1,
        0x20 | 0x22 | 0x27 | 0x29 => n == 1,
        0x23 | 0x2c => n == 2,
        0x25 | 0x26 | 0x28 | 0x2a | 0x2b => n == 0,
        _ => true,
    }
}

impl<'a> Ask<'a> {
    pub(crate) fn of(line: &'a [u8]) -> Option<Ask<'a>> {
        let (to, line) = to_of(after(b"ask", line)?);
        let (option, row) = match after(b" option", line) {
            Some(row) => (true, row),
            None => (false, line),
        };
        let ask = Ask { to, option, row };
        let pairs = row.len() / 3;
        let is_one = digits::is_row(row) && pairs > 0 && has_pairs(ask.command(), pairs - 1);
        is_one.then_some(ask)
    }

    fn command(self) -> u8 {
        pair(self.row, 1)
    }

    // The request, for blocks of the tag's size.
    fn request(self, tag: &Tag) -> Request {
        let (mode, uid) = match self.to {
            To::All => (0, 0),
            To::One(uid) => (1, uid),
            To::Selected => (2, 0),
        };
        let first = pair(self.row, 4);
        Request {
            uid,
            size: tag.size() as u16,
            command: self.command(),
            mode,
            option: u8::from(self.option),
            first,
            n: pair(self.row, 7),
            value: first,
        }
    }

    // Makes the request, with the bytes after the block as the data of 21.
    fn make(self, request: Request, frame: &mut [u8]) -> Result<usize, Refusal> {
        let mut written = [0u8; 86];
        let n = read_row(self.row.get(6..).unwrap_or(&[]), &mut written);
        request.make(&written[..n], frame)
    }

    // Makes the request and plays it, or tells why it can't be made.
    pub(crate) fn play(self, rt: &HostRuntime, tag: &mut Tag, text: &mut Text) -> Result<(), Told> {
        let mut frame = [0u8; 45];
        let request = self.request(tag);
        match self.make(request, &mut frame) {
            Ok(n) => play_request(request, &frame[..n.min(frame.len())], tag, text),
            Err(refusal) => text.put_refused(refusal),
        }
        text.tell_record(rt, tag.card())
    }
}

// Plays a request that was made, and tells it, the answer and what is read of that.
fn play_request(request: Request, frame: &[u8], tag: &mut Tag, text: &mut Text) {
    let mut room = [0u8; LONGEST_ANSWER];
    text.put_pairs(frame);
    let answer = tag.play(Event::Frame(frame), &mut room);
    text.put_answer(answer);
    put_read(request, answer.unwrap_or(&[]), text);
}

// How many lock bytes come with the blocks of 20 and 23.
fn locks_asked(request: Request) -> usize {
    match (request.option, request.command) {
        (0, _) => 0,
        (_, 0x23) => usize::from(request.n) + 1,
        _ => 1,
    }
}

// What is read of an answer, if there is one.
fn put_read(request: Request, answer: &[u8], text: &mut Text) {
    if !answer.is_empty() {
        let mut blocks = [0u8; 8192];
        let mut locks = [0u8; 256];
        let reading = request.read(answer, &mut blocks, &mut locks);
        text.put_reading(reading, &blocks, locks_asked(request), &locks);
    }
}
