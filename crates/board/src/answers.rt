// The reader from C: a request by value, and what its answer says, by value too.
ghost use Rattle.std.specs.Prelude.{◌≡◌, Some};
ghost use Rattle.reader.specs.Request.{Makes};
ghost use Rattle.reader.specs.Reading.{reading};
ghost use Rattle.board.specs.Answers.{kind_of, value_of, no_information, information_of, read_answer, ReadsByValue};

use crate::back;
use crate::in_place::minus;
use reader::{Information, Reading, Request};

// What C is told of an answer: minus the number of the refusal, else kind and value in one number; and what the tag says of itself, or zeros.
#[repr(C)]
#[derive(Clone, Copy)]
pub struct Shown {
    pub answer: i64,
    pub information: Information,
}

// The kind of a reading, and its value.
#[tactic(auto, unfolding(crate::specs::Answers::kind_of, crate::specs::Answers::value_of))]
fn kind_and_value(reading: Reading) -> (u32, u32)
    ensures kind { result.0 ≡ kind_of (Some reading) }
    ensures value { result.1 ≡ value_of (Some reading) }
{
    match reading {
        Reading::Done => (1, 0),
        Reading::Blocks(n) => (2, n),
        Reading::Locks(n) => (3, n),
        Reading::System(_) => (4, 0),
        Reading::Error(code) => (5, u32::from(code)),
    }
}

#[tactic(auto, unfolding(crate::specs::Answers::no_information))]
fn no_information() -> Information
    ensures { result ≡ no_information }
{
    Information {
        uid: 0,
        blocks: 0,
        size: 0,
        dsfid: 0,
        afi: 0,
        ic_reference: 0,
        flags: 0,
    }
}

#[tactic(auto, unfolding(crate::specs::Answers::information_of))]
fn information_of(reading: Reading) -> Information
    ensures { result ≡ information_of (Some reading) }
{
    match reading {
        Reading::System(information) => information,
        _ => no_information(),
    }
}

// Both in one number.
#[tactic(auto, unfolding(crate::specs::Answers::read_answer))]
fn packed(reading: Reading) -> i64
    ensures { result ≡ read_answer 0 (Some reading) }
{
    let (kind, value) = kind_and_value(reading);
    65536 * i64::from(kind) + i64::from(value)
}

pub fn ek_make(request: Request, written: &[u8], frame: &mut [u8]) -> i64
    ensures { Makes request written.now frame.old result frame.new }
{
    back(request.make(written, frame))
}

pub fn ek_read(request: Request, answer: &[u8], blocks: &mut [u8], locks: &mut [u8]) -> Shown
    ensures { ReadsByValue (reading request answer.now blocks.old locks.old) result blocks.new locks.new }
{
    match request.read(answer, blocks, locks) {
        Ok(reading) => Shown {
            answer: packed(reading),
            information: information_of(reading),
        },
        Err(refusal) => Shown {
            answer: minus(refusal),
            information: no_information(),
        },
    }
}
