// Every other request: to whom it goes, its faults in order, and the table of commands.
ghost use Rattle.std.specs.Prelude.{◌≡◌, cond, not, ltb, ◌+◌, ◌≤◌, get_or};
ghost use Rattle.card.specs.Record.{is_quiet, is_selected};
ghost use Rattle.frames.specs.Field.{field_at};
ghost use Rattle.commands.specs.Request.{deed, fault, done, failed, any_locked, width, commanded, is_listed, body_asked, refuses_option, holds_answer, body_length, judged, sorted};
ghost use Rattle.commands.specs.Verdict.{changed, made, to_whom, body_place, heeded};

use crate::Effect;
use crate::verdict::{Change, Verdict};
use card::{Card, Mode, Reply};
use frames::{Flags, byte_at};

// How many bytes a block number has in the frames of a command, and n likewise.
#[tactic(auto, unfolding(crate::specs::Request::width))]
fn width(command: u8) -> usize
    ensures { result ≡ width command }
{
    1
}

// Whether a lock byte of n + 1 from the first on is not 0.
fn any_locked(locks: &[u8], first: u32, n: u32) -> bool
    ensures { result ≡ any_locked locks.now first (n + 1) }
{
    (0..n as usize + 1).any(|i| byte_at(locks, first as usize + i) != 0)
}

#[tactic(auto, unfolding(crate::specs::Request::is_listed))]
fn is_listed(command: u8) -> bool
    ensures { result ≡ is_listed command }
{
    matches!(command, 0x20..=0x23 | 0x25..=0x2c)
}

#[tactic(auto, unfolding(crate::specs::Request::refuses_option))]
fn refuses_option(command: u8) -> bool
    ensures { result ≡ refuses_option command }
{
    matches!(command, 0x25 | 0x26 | 0x2b | 0x2c)
}

#[tactic(auto, unfolding(crate::specs::Request::holds_answer))]
fn holds_answer(command: u8) -> bool
    ensures { result ≡ holds_answer command }
{
    matches!(command, 0x21 | 0x22 | 0x27..=0x2a)
}

// A request for the card itself: its record and lock bytes, the flags, the frame with the place of the body there, and the command.
#[derive(Clone, Copy)]
struct Asked<'a> {
    card: &'a Card,
    locks: &'a [u8],
    flags: Flags,
    frame: &'a [u8],
    at: usize,
    command: u8,
    ghost fits: { at ≤ 10 },
    ghost read: { command ≡ get_or frame.now 1 0 },
}

impl Asked<'_> {
    // The block number, or n, at a place of the frame.
    #[tactic(auto, using(frames::proofs::Fields::field_of_one), unfolding(crate::specs::Request::width))]
    fn number_at(&self, at: usize) -> u16
        ensures { result ≡ field_at self.now.frame.now at (width self.now.command) }
    {
        u16::from(byte_at(self.frame, at))
    }

    // Whether n + 1 blocks from the first on are the card's.
    fn has_blocks(&self, first: u32, n: u32) -> bool
        ensures { result ≡ ltb (first + n) self.now.card.now.blocks }
    {
        u64::from(first) + u64::from(n) < u64::from(self.card.blocks)
    }

    // A reply on n + 1 blocks, if they are the card's.
    #[tactic(auto, using(crate::proofs::Verdicts::makes))]
    fn tell(&self, first: u32, n: u32, reply: Reply) -> Verdict
        ensures { made self.now.card.now result ≡ cond (ltb (first + n) self.now.card.now.blocks) (deed self.now.card.now Effect.Leave reply) (fault self.now.card.now 0x10) }
    {
        if self.has_blocks(first, n) {
            Verdict::answer(reply)
        } else {
            Verdict::fail(false, 0x10)
        }
    }

    // An effect on n + 1 blocks, if they are the card's and all are open; the code is for a locked one.
    #[tactic(auto, using(crate::proofs::Verdicts::makes), unfolding(crate::specs::Verdict::changed))]
    fn store(&self, first: u32, n: u32, code: u8, effect: Effect) -> Verdict
        ensures { made self.now.card.now result ≡ cond (ltb (first + n) self.now.card.now.blocks) (cond (any_locked self.now.locks.now first (n + 1)) (failed self.now.flags.b7 self.now.card.now code) (done self.now.flags.b7 self.now.card.now effect)) (failed self.now.flags.b7 self.now.card.now 0x10) }
    {
        if !self.has_blocks(first, n) {
            return Verdict::fail(self.flags.b7, 0x10);
        }
        if any_locked(self.locks, first, n) {
            return Verdict::fail(self.flags.b7, code);
        }
        Verdict::succeed(self.flags.b7, Change::Nothing, effect)
    }

    // AFI or DSFID changed, if it is not locked; the code is for a locked one.
    #[tactic(auto, using(crate::proofs::Verdicts::makes))]
    fn alter(&self, locked: bool, code: u8, change: Change) -> Verdict
        ensures { made self.now.card.now result ≡ cond locked (failed self.now.flags.b7 self.now.card.now code) (done self.now.flags.b7 (changed self.now.card.now change) Effect.Leave) }
    {
        if locked {
            Verdict::fail(self.flags.b7, code)
        } else {
            Verdict::succeed(self.flags.b7, change, Effect::Leave)
        }
    }

    // How many bytes the body has to have.
    #[tactic(auto, unfolding(crate::specs::Request::body_asked, crate::specs::Request::width))]
    fn body_asked(&self) -> usize
        ensures { result ≡ body_asked self.now.frame.now self.now.at self.now.command self.now.card.now.size }
    {
        let w = width(self.command);
        match self.command {
            0x20 | 0x22 => w,
            0x21 => w + self.card.size as usize,
            0x23 | 0x2c => w + w,
            0x27 | 0x29 => 1,
            _ => 0,
        }
    }

    // How many it has: those up to the check.
    #[tactic(auto, unfolding(crate::specs::Request::body_length))]
    fn body_length(&self) -> usize
        ensures { result ≡ body_length self.now.frame.now self.now.at }
    {
        self.frame.len().saturating_sub(self.at + 2)
    }

    // The table, command by command.
    #[tactic(auto, using(crate::proofs::Blocks::any_locked_one, crate::proofs::Verdicts::makes), unfolding(crate::specs::Request::commanded, crate::specs::Request::reads, crate::specs::Request::writes, crate::specs::Request::locks_block, crate::specs::Request::tells_locks, crate::specs::Request::writes_afi, crate::specs::Request::locks_afi, crate::specs::Request::writes_dsfid, crate::specs::Request::locks_dsfid, crate::specs::Request::width, crate::specs::Request::done, crate::specs::Verdict::changed))]
    fn perform(&self) -> Verdict
        ensures { made self.now.card.now result ≡ commanded self.now.card.now self.now.locks.now self.now.flags.b7 self.now.frame.now self.now.at self.now.command }
    {
        let option = self.flags.b7;
        let w = width(self.command);
        let first = u32::from(self.number_at(self.at));
        let second = u32::from(self.number_at(self.at + w));
        let count = second + 1;
        let place = (self.at + w) as u32;
        let value = byte_at(self.frame, self.at);
        match self.command {
            0x20 => self.tell(first, 0, Reply::Blocks(first, 1, option)),
            0x21 => self.store(first, 0, 0x12, Effect::Write(first, 1, place)),
            0x22 => self.store(first, 0, 0x11, Effect::Lock(first)),
            0x23 => self.tell(first, second, Reply::Blocks(first, count, option)),
            0x25 => Verdict::succeed(false, Change::InMode(Mode::Selected), Effect::Leave),
            0x26 => Verdict::succeed(false, Change::InMode(Mode::Ready), Effect::Leave),
            0x27 => self.alter(self.card.afi_locked, 0x12, Change::Afi(value, false)),
            0x28 => self.alter(self.card.afi_locked, 0x11, Change::Afi(self.card.afi, true)),
            0x29 => self.alter(self.card.dsfid_locked, 0x12, Change::Dsfid(value, false)),
            0x2a => self.alter(
                self.card.dsfid_locked,
                0x11,
                Change::Dsfid(self.card.dsfid, true),
            ),
            0x2b => Verdict::answer(Reply::Information),
            _ => self.tell(first, second, Reply::Status(first, count)),
        }
    }

    // The faults 01, 02 and 03 in this order, then the table.
    #[tactic(auto, using(crate::proofs::Verdicts::makes), unfolding(crate::specs::Request::judged))]
    fn judge(&self) -> Verdict
        ensures { made self.now.card.now result ≡ judged self.now.card.now self.now.locks.now self.now.flags self.now.frame.now self.now.at self.now.command }
    {
        let option = self.flags.b7;
        if !is_listed(self.command) {
            return Verdict::fail(false, 0x01);
        }
        if self.body_length() != self.body_asked() {
            return Verdict::fail(option && holds_answer(self.command), 0x02);
        }
        if option && refuses_option(self.command) {
            return Verdict::fail(false, 0x03);
        }
        self.perform()
    }

    // 02 and an unaddressed 25, then all others.
    #[tactic(auto, using(crate::proofs::Verdicts::makes), unfolding(crate::specs::Request::sorted, crate::specs::Request::quieted))]
    fn sort(&self) -> Verdict
        ensures { made self.now.card.now result ≡ sorted self.now.card.now self.now.locks.now self.now.flags self.now.frame.now self.now.at }
    {
        let addressed = self.flags.b6;
        match self.command {
            0x02 => Verdict::turn_if(addressed && self.body_length() == 0, Mode::Quiet),
            0x25 if !addressed => Verdict::answer(Reply::Silence),
            _ => self.judge(),
        }
    }
}

// Whether a request with no address goes on: with Select for a Selected card alone, else for all but a Quiet one.
#[tactic(auto, unfolding(card::specs::Record::is_selected, card::specs::Record::is_quiet))]
fn goes_on(select: bool, mode: Mode) -> bool
    ensures { result ≡ cond select (is_selected mode) (not (is_quiet mode)) }
{
    match mode {
        Mode::Ready => !select,
        Mode::Quiet => false,
        Mode::Selected => true,
    }
}

// For whom a frame is.
#[derive(Clone, Copy)]
enum Address {
    Nobody,
    Another,
    Own,
}

#[tactic(auto, unfolding(crate::specs::Verdict::to_whom))]
fn address_of(card: &Card, f: Flags, frame: &[u8]) -> Address
    ensures { result ≡ to_whom card.now f frame.now }
{
    if !frames::is_sound(frame) || f.b4 || f.b8 {
        return Address::Nobody;
    }
    if !f.b6 {
        return if goes_on(f.b5, card.mode) {
            Address::Own
        } else {
            Address::Nobody
        };
    }
    if f.b5 || frame.len() < 12 {
        return Address::Nobody;
    }
    if frames::field(frame, 2, 8) == card.uid {
        Address::Own
    } else {
        Address::Another
    }
}

// Where the body of a request stands in the frame.
fn body_place(f: Flags) -> usize
    ensures { result ≡ body_place f }
{
    if f.b6 { 10 } else { 2 }
}

// A frame that is no inventory request.
#[tactic(auto, using(crate::proofs::Verdicts::makes, crate::proofs::Verdicts::heeds), unfolding(crate::specs::Request::passed_by))]
pub(crate) fn request(card: &Card, locks: &[u8], f: Flags, frame: &[u8]) -> Verdict
    ensures { made card.now result ≡ heeded card.now locks.now f frame.now }
{
    let command = byte_at(frame, 1);
    match address_of(card, f, frame) {
        Address::Nobody => Verdict::answer(Reply::Silence),
        Address::Another => Verdict::turn_if(
            command == 0x25 && goes_on(true, card.mode),
            Mode::Ready,
        ),
        Address::Own => {
            let asked = Asked {
                card,
                locks,
                flags: f,
                frame,
                at: body_place(f),
                command,
            };
            asked.sort()
        }
    }
}
