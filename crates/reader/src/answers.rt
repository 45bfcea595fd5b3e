// What an answer says: the tests of numbers 7, 8 and 11, and the part after the flags handed to the command that owns it.
ghost use Rattle.std.specs.Prelude.{◌≡◌, true, ◌+◌, ◌≤◌, length};
ghost use Rattle.std.specs.Result.{OnOk};
ghost use Rattle.refusals.specs.Number.{number_of};
ghost use Rattle.reader.specs.Request.{is_request};
ghost use Rattle.reader.specs.Reading.{reads_blocks, count, lead_of, block_bytes, lock_bytes, earned, is_success, is_answer, read_refusal, shown_in, reading, Reads};
ghost use Rattle.reader.specs.Steps.{Unrefused, Hands};

use crate::{Reading, Request, owners};
use frames::SHORTEST_ANSWER;
use refusals::Refusal;

impl Request {
    #[tactic(auto, unfolding(crate::specs::Reading::reads_blocks))]
    fn reads_blocks(self) -> bool
        ensures { result ≡ reads_blocks self }
    {
        matches!(self.command, 0x20 | 0x23)
    }

    // The blocks that the request is about.
    #[tactic(auto, unfolding(crate::specs::Reading::count))]
    fn count(self) -> usize
        ensures value { result ≡ count self }
        ensures most { result ≤ 256 }
    {
        match self.command {
            0x23 | 0x2c => usize::from(self.n) + 1,
            _ => 1,
        }
    }

    // The bytes before each block.
    #[tactic(auto, unfolding(crate::specs::Reading::lead_of))]
    fn lead(self) -> usize
        ensures value { result ≡ lead_of self }
        ensures most { result ≤ 1 }
    {
        usize::from(self.has_option())
    }

    #[tactic(auto, using(crate::proofs::Counts::products_fit), unfolding(crate::specs::Reading::block_bytes))]
    fn block_bytes(self) -> usize
        ensures { result ≡ block_bytes self }
    {
        if self.reads_blocks() {
            self.count() * usize::from(self.size)
        } else {
            0
        }
    }

    #[tactic(auto, using(crate::proofs::Counts::products_fit), unfolding(crate::specs::Reading::lock_bytes, crate::specs::Reading::reads_blocks))]
    fn lock_bytes(self) -> usize
        ensures { result ≡ lock_bytes self }
    {
        match self.command {
            0x20 | 0x23 => self.count() * self.lead(),
            0x2c => self.count(),
            _ => 0,
        }
    }

    // How long a success is, with flags and check.
    #[tactic(auto, using(crate::proofs::Counts::products_fit), unfolding(crate::specs::Reading::earned, crate::specs::Reading::reads_blocks))]
    fn earned(self) -> usize
        ensures { result ≡ earned self }
    {
        let part = match self.command {
            0x20 | 0x23 => self.count() * (self.lead() + usize::from(self.size)),
            0x2c => self.count(),
            0x2b => 14,
            _ => 0,
        };
        3 + part
    }

    #[tactic(auto, unfolding(crate::specs::Reading::is_success))]
    fn is_success(self, answer: &[u8]) -> bool
        requires { 3 ≤ length answer.now }
        ensures { result ≡ is_success self answer.now }
    {
        answer[0] == 0x00
            && answer.len() == self.earned()
            && (self.command != 0x2b || answer[1] == 0x0f)
    }

    #[tactic(auto, unfolding(crate::specs::Reading::is_answer, crate::specs::Reading::is_error, crate::specs::Reading::is_success, frames::specs::Frame::shortest_answer))]
    fn is_answer(self, answer: &[u8]) -> bool
        ensures value { result ≡ is_answer self answer.now }
        ensures long { result ≡ true → 3 ≤ length answer.now }
    {
        if answer.len() < SHORTEST_ANSWER || !crc::is_sealed(answer) {
            return false;
        }
        if answer[0] == 0x01 {
            return answer.len() == 4;
        }
        self.is_success(answer)
    }

    #[tactic(auto, unfolding(crate::specs::Reading::read_refusal, refusals::specs::Number::number_of, refusals::specs::Number::number))]
    fn may_be_read(self, answer: &[u8], blocks: usize, locks: usize) -> Result<(), Refusal>
        ensures number { number_of result ≡ read_refusal self answer.now blocks locks }
        ensures passes { OnOk result (Unrefused self answer.now blocks locks) }
    {
        if !self.is_request() {
            return Err(Refusal::Unfit);
        }
        if blocks < self.block_bytes() || locks < self.lock_bytes() {
            return Err(Refusal::Room);
        }
        if self.is_answer(answer) {
            Ok(())
        } else {
            Err(Refusal::NoAnswer)
        }
    }

    // The part after the flags goes to the command that owns it.
    #[tactic(auto, using(lent::proofs::Over::over_none, crate::proofs::Counts::count_most), unfolding(crate::specs::Reading::reads_blocks, crate::specs::Reading::earned, crate::specs::Reading::block_bytes, crate::specs::Reading::lock_bytes, crate::specs::Reading::shown_in, crate::specs::Reading::outcome, crate::specs::Reading::reading_in, crate::specs::Reading::block_bytes_in, crate::specs::Reading::lock_bytes_in, crate::specs::Request::is_request))]
    fn hand_over(self, part: &[u8], blocks: &mut [u8], locks: &mut [u8]) -> Reading
        requires request_value { is_request self ≡ true }
        requires part_len { length part.now + 3 ≡ earned self }
        requires request_in_bounds { block_bytes self ≤ length blocks.old }
        requires request_in_bounds_2 { lock_bytes self ≤ length locks.old }
        ensures { Hands (shown_in self part.now blocks.old locks.old) result blocks.new locks.new }
    {
        match self.command {
            0x20 | 0x23 => {
                let size = usize::from(self.size);
                owners::blocks(part, self.lead(), size, self.count(), blocks, locks)
            }
            0x2c => owners::locks(part, locks),
            0x2b => owners::information(part),
            _ => owners::nothing(part),
        }
    }

    // What an answer to the request says. Block bytes and lock bytes stand at the start of their buffers; an error leaves both as they were.
    pub fn read(
        self,
        answer: &[u8],
        blocks: &mut [u8],
        locks: &mut [u8],
    ) -> Result<Reading, Refusal>
        ensures { Reads (reading self answer.now blocks.old locks.old) result blocks.new locks.new }
    {
        self.may_be_read(answer, blocks.len(), locks.len())?;
        if answer[0] != 0x00 {
            return Ok(Reading::Error(answer[1]));
        }
        let n = answer.len();
        Ok(self.hand_over(&answer[1..n - 2], blocks, locks))
    }
}
