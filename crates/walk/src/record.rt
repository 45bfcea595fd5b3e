// The walk's record: which ones are accepted, and each way in which it changes.
ghost use Rattle.std.specs.Prelude.{◌≡◌, ◌+◌, ◌^◌, ◌≤◌, ◌<◌, length};
ghost use Rattle.walk.specs.Steps.{number};
ghost use Rattle.walk.specs.Record.{mask_length, whole_mask, low_half, high_half, marks_fit, is_accepted, ended, counted, marked, at_next_slot, opened_mask, opened, started};

use crate::marks::{deepest, lowest, with_mark, without_mark};
use crate::{Ending, LAST_LEVEL, LEVELS, MOST_ROUNDS, Walk};

#[tactic(auto, using(std::proofs::lemmas::Bool::Decides::nat_tests, crate::proofs::Levels::deepest_of_most), unfolding(crate::specs::Record::marks_fit, crate::specs::Steps::levels_to, crate::specs::Marks::deepest))]
fn marks_fit(marks: [u16; LEVELS], level: u8) -> bool
    ensures { result ≡ marks_fit marks level }
{
    match deepest(&marks) {
        Some(deepest) => (deepest <= usize::from(level)) & (deepest + 1 < LEVELS),
        None => true,
    }
}

// The unit of the digit above j digits.
fn unit(j: u8) -> u64
    requires { j < 15 }
    ensures value { result ≡ 2 ^ mask_length j }
    ensures upper_bound { result ≤ 2 ^ 56 }
{
    1u64 << (4 * j)
}

// The mask of slot s of level j, which has j digits.
fn opened_mask(mask: u64, j: u8, s: u8) -> u64
    requires j_bound { j < 15 }
    requires s_bound { s < 16 }
    ensures { result ≡ opened_mask mask j s }
{
    slots::low_bits(mask, 4 * j) + u64::from(s) * unit(j)
}

#[tactic(auto, unfolding(crate::specs::Record::low_half))]
fn low_half(mask: u64) -> u32
    ensures { result ≡ low_half mask }
{
    (mask % 0x1_0000_0000) as u32
}

#[tactic(auto, unfolding(crate::specs::Record::high_half))]
fn high_half(mask: u64) -> u32
    ensures { result ≡ high_half mask }
{
    (mask / 0x1_0000_0000) as u32
}

impl Walk {
    // A fresh walk. Family 0 to 255 is an AFI, all else none.
    #[tactic(auto, unfolding(crate::specs::Record::started, crate::specs::Record::started_of, crate::specs::Record::no_marks, crate::specs::Marks::levels))]
    pub fn start(family: u16) -> Self
        ensures { result ≡ started family }
    {
        Walk {
            mask_low: 0,
            mask_high: 0,
            marks: [0; LEVELS],
            rounds: 1,
            family,
            level: 0,
            slot: 0,
            count: 0,
            ending: 0,
        }
    }

    // The digits opened so far, of both halves.
    #[tactic(auto, unfolding(crate::specs::Record::whole_mask))]
    pub fn mask(self) -> u64
        ensures { result ≡ whole_mask self }
    {
        u64::from(self.mask_low) + u64::from(self.mask_high) * 0x1_0000_0000
    }

    // Whether number 10 does not refuse the record.
    #[tactic(auto, using(std::proofs::lemmas::Bool::Decides::nat_tests, crate::proofs::Limits::is_accepted_by_tests), unfolding(crate::specs::Record::is_accepted, crate::specs::Record::levels_of, crate::specs::Record::most_rounds, crate::specs::Record::mask_length, crate::specs::Record::places, crate::specs::Marks::levels))]
    pub fn is_accepted(self) -> bool
        ensures { result ≡ is_accepted self }
    {
        self.level <= LAST_LEVEL
            && ((self.slot <= 15)
                & (self.count <= 64)
                & (1 <= self.rounds)
                & (self.rounds <= MOST_ROUNDS))
            && slots::is_below(self.mask(), 4 * self.level)
            && marks_fit(self.marks, self.level)
    }

    #[tactic(auto, unfolding(crate::specs::Record::remade, crate::specs::Record::ended, crate::specs::Steps::number))]
    pub(crate) fn ended(self, ending: Ending) -> Walk
        ensures { result ≡ ended (number ending) self }
    {
        Walk {
            ending: ending as u8,
            ..self
        }
    }

    #[tactic(auto, unfolding(crate::specs::Record::remade, crate::specs::Record::counted))]
    pub(crate) fn counted(self) -> Walk
        requires { self.count < 64 }
        ensures { result ≡ counted self }
    {
        Walk {
            count: self.count + 1,
            ..self
        }
    }

    #[tactic(auto, unfolding(crate::specs::Record::remade, crate::specs::Record::marked))]
    pub(crate) fn marked(self) -> Walk
        requires level_in_bounds { self.level < length self.marks }
        requires slot_bound { self.slot < 16 }
        ensures { result ≡ marked self }
    {
        let mut marks = self.marks;
        let at = usize::from(self.level);
        marks[at] = with_mark(marks[at], self.slot);
        Walk { marks, ..self }
    }

    #[tactic(auto, unfolding(crate::specs::Record::remade, crate::specs::Record::at_next_slot))]
    pub(crate) fn at_next_slot(self) -> Walk
        requires { self.slot < 15 }
        ensures { result ≡ at_next_slot self }
    {
        Walk {
            slot: self.slot + 1,
            ..self
        }
    }

    // Opens the lowest slot that waits at level j.
    #[tactic(auto, using(crate::proofs::Levels::lowest_is_slot), unfolding(crate::specs::Record::remade, crate::specs::Record::opened, crate::specs::Record::opened_at, crate::specs::Record::whole_mask))]
    pub(crate) fn opened(self, j: u8) -> Walk
        requires j_in_bounds { j + 1 < length self.marks }
        requires rounds_bound { self.rounds < 65000 }
        ensures { result ≡ opened self j }
    {
        let mut marks = self.marks;
        let at = usize::from(j);
        let s = lowest(marks[at]);
        marks[at] = without_mark(marks[at], s);
        let mask = opened_mask(self.mask(), j, s);
        Walk {
            marks,
            mask_low: low_half(mask),
            mask_high: high_half(mask),
            rounds: self.rounds + 1,
            level: j + 1,
            slot: 0,
            ..self
        }
    }
}
