// What is printed: each line that is played, the answer, and the record after it.
ghost use Rattle.std.specs.Prelude.{[], ◌∷◌, ◌++◌};
ghost use Rattle.digits.specs.Digits.{hex_digits};
ghost use Rattle.digits.specs.Rows.{row_text};
ghost use Rattle.refusals.specs.Number.{number};
ghost use Rattle.player.specs.Text.{Adds, Grows};
ghost use Rattle.player.specs.Answer.{pairs_text, refused_text, heard_text, answer_text};
ghost use Rattle.player.specs.Record.{mode_text, mask_text, running_text, sequence_text, held_text, kept_text, record_text};

use card::{Card, Held, Mode, Sequence};
use frames::LONGEST_ANSWER;
use input::Told;
use refusals::Refusal;

// Room for all that is told of a line: its 256 bytes, a request of 45, an answer and what is read of it in three for each byte, and the words of
// that and of a record, less than 256.
const MOST_TOLD: usize = 256 + 3 * (45 + LONGEST_ANSWER + 8192 + 256) + 256;

// A text that is put together piece by piece, and cut off where there is no room left. There is one, lent on: it is large, and one that moves is copied.
#[derive(Drop)]
pub(crate) struct Text {
    bytes: [u8; MOST_TOLD],
    at: usize,
}

impl Text {
    pub(crate) fn new() -> Text {
        Text {
            bytes: [0; MOST_TOLD],
            at: 0,
        }
    }

    // Begins anew, with bytes.
    pub(crate) fn begin(&mut self, bytes: &[u8])
        ensures { Adds 0 bytes.now self.old.bytes self.new.at self.new.bytes }
    {
        self.at = 0;
        self.put(bytes);
    }

    // Adds bytes, as many as there is room for.
    pub(crate) fn put(&mut self, bytes: &[u8])
        ensures { Grows bytes.now self.old self.new }
    {
        let count = self.bytes.len().saturating_sub(self.at).min(bytes.len());
        // These fit: no more are put than there is room for.
        let _ = digits::put_bytes(&bytes[..count], &mut self.bytes, self.at);
        self.at += count;
    }

    // Adds the pair for a byte after another byte: a space, or the line feed before a line.
    #[tactic(auto, unfolding(digits::specs::Digits::hex_digits))]
    fn put_byte(&mut self, before: u8, b: u8)
        ensures { Grows (before ∷ hex_digits 2 b) self.old self.new }
    {
        let n = u64::from(b);
        self.put(&[before, digits::digit(n / 16), digits::digit(n)]);
    }

    // Adds the row for bytes.
    fn put_row(&mut self, bytes: &[u8])
        ensures { Grows (row_text bytes.now) self.old self.new }
    {
        for b in bytes {
            self.put_byte(b' ', *b);
        }
    }

    pub(crate) fn put_named(&mut self, name: &[u8], bytes: &[u8])
        ensures { Grows (name.now ++ row_text bytes.now) self.old self.new }
    {
        self.put(name);
        self.put_row(bytes);
    }

    pub(crate) fn put_pair(&mut self, name: &[u8], b: u8)
        ensures { Grows (name.now ++ row_text (b ∷ [])) self.old self.new }
    {
        self.put_named(name, &[b]);
    }

    // Adds the pairs for bytes on the next line, with single spaces between them.
    #[tactic(auto, unfolding(crate::specs::Answer::pairs_text))]
    pub(crate) fn put_pairs(&mut self, bytes: &[u8])
        ensures { Grows (pairs_text bytes.now) self.old self.new }
    {
        match bytes {
            [] => self.put(b"\n"),
            [first, rest @ ..] => {
                self.put_byte(b'\n', *first);
                self.put_row(rest);
            }
        }
    }

    #[tactic(auto, unfolding(crate::specs::Record::mode_text))]
    fn put_mode(&mut self, mode: Mode)
        ensures { Grows (mode_text mode) self.old self.new }
    {
        match mode {
            Mode::Ready => self.put(b"\n  mode Ready"),
            Mode::Quiet => self.put(b"\n  mode Quiet"),
            Mode::Selected => self.put(b"\n  mode Selected"),
        }
    }

    fn put_mask(&mut self, mask: u64)
        ensures { Grows (mask_text mask) self.old self.new }
    {
        self.put_named(b", mask", &mask.to_le_bytes());
    }

    // A sequence that runs.
    fn put_running(&mut self, slot: u8, length: u8, mask: u64)
        ensures { Grows (running_text slot length mask) self.old self.new }
    {
        self.put_pair(b", slot", slot);
        self.put_pair(b", mask length", length);
        self.put_mask(mask);
    }

    // The sequence, if one runs.
    #[tactic(auto, unfolding(crate::specs::Record::sequence_text))]
    fn put_sequence(&mut self, sequence: Sequence)
        ensures { Grows (sequence_text sequence) self.old self.new }
    {
        match sequence {
            Sequence::Idle => {}
            Sequence::Running(slot, length, mask) => self.put_running(slot, length, mask),
        }
    }

    // The held answer, if there is one.
    #[tactic(auto, unfolding(crate::specs::Record::held_text))]
    fn put_held(&mut self, held: Held)
        ensures { Grows (held_text held) self.old self.new }
    {
        match held {
            Held::Free => {}
            Held::Success => self.put(b", held success"),
            Held::Code(code) => self.put_pair(b", held error", code),
        }
    }

    // A byte of the record that may be locked.
    #[tactic(auto, unfolding(crate::specs::Record::kept_text))]
    fn put_kept(&mut self, name: &[u8], b: u8, is_locked: bool)
        ensures { Grows (kept_text name.now b is_locked) self.old self.new }
    {
        self.put_pair(name, b);
        if is_locked {
            self.put(b" locked");
        }
    }

    // The record, on the next line.
    fn put_record(&mut self, card: Card)
        ensures { Grows (record_text card) self.old self.new }
    {
        self.put_mode(card.mode);
        self.put_sequence(card.sequence);
        self.put_held(card.held);
        self.put_kept(b", AFI", card.afi, card.afi_locked);
        self.put_kept(b", DSFID", card.dsfid, card.dsfid_locked);
    }

    // The number of a refusal, on the next line.
    pub(crate) fn put_refused(&mut self, refusal: Refusal)
        ensures { Grows (refused_text (number refusal)) self.old self.new }
    {
        self.put(b"\nrefused ");
        self.put(&[digits::digit(u64::from(refusal.number()))]);
    }

    // An answer, or silence, on the next line.
    fn put_heard(&mut self, answer: &[u8])
        ensures { Grows (heard_text answer.now) self.old self.new }
    {
        match answer {
            [] => self.put(b"\nsilence"),
            [_, ..] => self.put_pairs(answer),
        }
    }

    // What came of an event: its answer, or the number of its refusal.
    #[tactic(auto, unfolding(crate::specs::Answer::answer_text))]
    pub(crate) fn put_answer(&mut self, answer: Result<&[u8], Refusal>)
        ensures { Grows (answer_text answer.entry) self.old self.new }
    {
        match answer {
            Ok(answer) => self.put_heard(answer),
            Err(refusal) => self.put_refused(refusal),
        }
    }

    // Adds bytes, so many on a line.
    pub(crate) fn put_blocks(&mut self, size: usize, bytes: &[u8]) {
        if size > 0 {
            for block in bytes.chunks(size) {
                self.put_pairs(block);
            }
        }
    }

    // Writes the text with a line feed after it. A write that fails is told.
    pub(crate) fn write(&mut self, rt: &HostRuntime) -> Result<(), Told> {
        self.put(b"\n");
        let n = self.at.min(self.bytes.len());
        let written = rt.write_all(&self.bytes[..n]);
        input::wrote(rt, b"espenknoten-player: standard output", written)
    }

    // Ends what is told of an event with the record after it.
    pub(crate) fn tell_record(&mut self, rt: &HostRuntime, card: Card) -> Result<(), Told> {
        self.put_record(card);
        self.write(rt)
    }

    // Tells the number of a line that can't be read.
    pub(crate) fn tell_bad_line(&mut self, rt: &HostRuntime, number: u64) -> Result<(), Told> {
        let mut decimal = [0u8; 20];
        let n = digits::put_decimal(number, &mut decimal, 0).unwrap_or(0);
        self.begin(b"bad line ");
        self.put(&decimal[..n.min(decimal.len())]);
        self.write(rt)
    }
}
