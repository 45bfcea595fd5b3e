// The bytes of each answer, without the check, at the start of the room for it. Each function returns how many they are.
ghost use Rattle.std.specs.Prelude.{◌≡◌, true, [], ◌∷◌, ◌+◌, ◌*◌, ◌≤◌, ◌<◌, length};
ghost use Rattle.card.specs.Record.{shape_fits};
ghost use Rattle.card.specs.Reply.{lead};
ghost use Rattle.play.specs.Fits.{reply_fits};
ghost use Rattle.play.specs.Steps.{is_brief, Ready, PutsReply};
ghost use Rattle.play.specs.Answer.{block_read, blocks_read, locks_read, information, presence, reply_bytes};
ghost use Rattle.lent.specs.Puts.{Puts, PutsAt};

use crate::effects::copy_all;
use card::{Card, Reply};

fn put_error(code: u8, answer: &mut [u8]) -> usize
    requires { 2 ≤ length answer.old }
    ensures { Puts (0x01 ∷ code ∷ []) answer.old result answer.new }
{
    answer[0] = 0x01;
    answer[1] = code;
    2
}

fn put_done(answer: &mut [u8]) -> usize
    requires { 1 ≤ length answer.old }
    ensures { Puts (0x00 ∷ []) answer.old result answer.new }
{
    answer[0] = 0x00;
    1
}

fn put_presence(card: Card, answer: &mut [u8]) -> usize
    requires { 10 ≤ length answer.old }
    ensures { Puts (0x00 ∷ presence card) answer.old result answer.new }
{
    answer[0] = 0x00;
    answer[1] = card.dsfid;
    frames::put_field(answer, 2, 8, card.uid).unwrap()
}

fn put_information(card: Card, answer: &mut [u8]) -> usize
    requires size_value { shape_fits card.blocks card.size ≡ true }
    requires in_bounds { 15 ≤ length answer.old }
    ensures { Puts (0x00 ∷ information card) answer.old result answer.new }
{
    answer[0] = 0x00;
    answer[1] = 0x0f;
    frames::put_field(answer, 2, 8, card.uid).unwrap();
    answer[10] = card.dsfid;
    answer[11] = card.afi;
    answer[12] = (card.blocks - 1) as u8;
    answer[13] = (card.size - 1) as u8;
    answer[14] = card.ic_reference;
    15
}

// A block at a place of the answer, with its lock byte first where the option asks for it. Returns the place after it.
fn put_block(
    memory: &[u8],
    locks: &[u8],
    size: usize,
    option: bool,
    block: usize,
    answer: &mut [u8],
    at: usize,
) -> usize
    requires size_in_bounds { block * size + size ≤ length memory.now }
    requires block_in_bounds { block < length locks.now }
    requires option_in_bounds { at + (size + lead option) ≤ length answer.old }
    ensures { PutsAt at (block_read memory.now locks.now size option block) answer.old result answer.new }
{
    let mut at = at;
    if option {
        answer[at] = locks[block];
        at += 1;
    }
    let start = block * size;
    copy_all(&mut answer[at..at + size], &memory[start..start + size]);
    at + size
}

fn put_blocks(
    memory: &[u8],
    locks: &[u8],
    size: usize,
    option: bool,
    first: usize,
    n: usize,
    answer: &mut [u8],
) -> usize
    requires size_in_bounds { (first + n) * size ≤ length memory.now }
    requires n_in_bounds { first + n ≤ length locks.now }
    requires option_in_bounds { 1 + n * (size + lead option) ≤ length answer.old }
    ensures { Puts (0x00 ∷ blocks_read memory.now locks.now size option first n) answer.old result answer.new }
{
    answer[0] = 0x00;
    let mut at = 1;
    for block in first..first + n {
        at = put_block(memory, locks, size, option, block, answer, at);
    }
    at
}

fn put_locks(locks: &[u8], first: usize, n: usize, answer: &mut [u8]) -> usize
    requires n_in_bounds { first + n ≤ length locks.now }
    requires n_in_bounds_2 { 1 + n ≤ length answer.old }
    ensures { Puts (0x00 ∷ locks_read locks.now first n) answer.old result answer.new }
{
    answer[0] = 0x00;
    copy_all(&mut answer[1..1 + n], &locks[first..first + n]);
    1 + n
}

// The replies that need no memory.
#[tactic(auto, using(crate::proofs::Room::brief_put, crate::proofs::Answers::length_presence, lent::proofs::Over::over_none), unfolding(crate::specs::Answer::reply_bytes, crate::specs::Steps::is_brief))]
pub(crate) fn put_brief(card: Card, reply: Reply, answer: &mut [u8]) -> usize
    requires reply_value { is_brief reply ≡ true }
    requires in_bounds { 12 ≤ length answer.old }
    ensures { PutsReply (reply_bytes card [] [] reply) answer.old result answer.new }
{
    match reply {
        Reply::Error(code) => put_error(code, answer),
        Reply::Done => put_done(answer),
        Reply::Present => put_presence(card, answer),
        _ => 0,
    }
}

#[tactic(auto, using(crate::proofs::Room::room_of), unfolding(crate::specs::Fits::reply_fits))]
pub(crate) fn put_reply(
    card: Card,
    memory: &[u8],
    locks: &[u8],
    reply: Reply,
    answer: &mut [u8],
) -> usize
    requires ready { Ready card (length memory.now) (length locks.now) (length answer.old) }
    requires reply_value { reply_fits card reply ≡ true }
    ensures { PutsReply (reply_bytes card memory.now locks.now reply) answer.old result answer.new }
{
    let size = card.size as usize;
    match reply {
        Reply::Blocks(first, n, option) => put_blocks(
            memory,
            locks,
            size,
            option,
            first as usize,
            n as usize,
            answer,
        ),
        Reply::Status(first, n) => put_locks(locks, first as usize, n as usize, answer),
        Reply::Information => put_information(card, answer),
        _ => put_brief(card, reply, answer),
    }
}
