// A slot is heard: what it brought, what the walk and its list become, and whether the walk ends.
ghost use Rattle.std.specs.Prelude.{◌≡◌, ◌<◌, length, IfSome, is_some, unwrap_or};
ghost use Rattle.refusals.specs.Number.{number_of};
ghost use Rattle.walk.specs.Marks.{levels, deepest};
ghost use Rattle.walk.specs.Hear.{uid_of, starts_e0, is_clean, judged, passed, walk_after, list_after, refusal, hearing, Hears};
ghost use Rattle.walk.specs.Steps.{After, Notes};

use crate::marks::deepest;
use crate::{AcceptedWalk, Ending, Kind, LAST_LEVEL, MOST_ROUNDS, Slot, Walk};
use refusals::Refusal;

#[tactic(auto, unfolding(crate::specs::Hear::uid_of))]
fn uid_of(bytes: &[u8]) -> u64
    ensures { result ≡ uid_of bytes.now }
{
    frames::field(bytes, 2, 8)
}

// All UIDs begin with E0: that byte is above the digits of a walk's levels.
#[tactic(auto, unfolding(crate::specs::Hear::starts_e0, crate::specs::Marks::levels))]
fn starts_e0(uid: u64) -> bool
    ensures { result ≡ starts_e0 levels uid }
{
    slots::high_bits(uid, 56) == 0xE0
}

// On to the next slot; after slot 15 the walk opens a clash of the deepest level where one waits, or ends.
#[inline(always)]
#[tactic(auto, using(std::proofs::lemmas::Bool::Decides::nat_tests), unfolding(crate::specs::Hear::passed, crate::specs::Hear::turned, crate::specs::Record::most_rounds, crate::specs::Record::levels_of, crate::specs::Marks::levels, crate::specs::Steps::levels_to, crate::specs::Steps::number))]
fn pass(walk: Walk) -> Walk
    requires { deepest walk.marks < length walk.marks }
    ensures { result ≡ passed walk }
{
    if walk.slot < 15 {
        return walk.at_next_slot();
    }
    match deepest(&walk.marks) {
        None => walk.ended(Ending::Complete),
        Some(level) if walk.rounds < MOST_ROUNDS => walk.opened(level as u8),
        Some(_) => walk.ended(Ending::Overrun),
    }
}

#[tactic(auto, using(std::proofs::lemmas::Bool::Decides::nat_tests), unfolding(crate::specs::Hear::refusal, crate::specs::Record::is_running, crate::specs::Record::places, refusals::specs::Number::number, refusals::specs::Number::number_of))]
#[inline(always)]
pub(crate) fn refusal(walk: Walk, room: usize) -> Result<(), Refusal>
    ensures { number_of result ≡ refusal walk room }
{
    if !walk.is_accepted() {
        return Err(Refusal::WalkRecord);
    }
    if walk.ending != 0 {
        return Err(Refusal::Ended);
    }
    if room < 64 {
        return Err(Refusal::List);
    }
    Ok(())
}

impl AcceptedWalk {
    // Whether bytes that have this UID are a clean reply.
    #[tactic(auto, using(std::proofs::lemmas::Bool::Decides::nat_tests, crate::proofs::Limits::level_few), unfolding(crate::specs::Hear::is_clean, crate::specs::Record::mask_length, crate::specs::Record::levels_of, crate::specs::Marks::levels))]
    fn is_clean(self, uid: u64, bytes: &[u8]) -> bool
        requires { uid ≡ uid_of bytes.now }
        ensures { result ≡ is_clean self.walk bytes.now }
    {
        bytes.len() == 12
            && crc::is_sealed(bytes)
            && bytes[0] == 0x00
            && slots::fits_slot(uid, 4 * self.walk.level, self.walk.mask(), self.walk.slot)
            && starts_e0(uid)
    }

    #[tactic(auto, unfolding(crate::specs::Hear::judged))]
    pub(crate) fn judge(self, kind: Kind, bytes: &[u8]) -> Slot
        ensures { result ≡ judged self.walk kind bytes.now }
    {
        match kind {
            Kind::Silence => Slot::Silent,
            Kind::Clash => Slot::Clashed,
            Kind::Bytes => {
                let uid = uid_of(bytes);
                if self.is_clean(uid, bytes) {
                    Slot::Clean(uid)
                } else {
                    Slot::Clashed
                }
            }
        }
    }

    // The slot in the walk's marks, or in its count and at the list's place for a clean UID. Else what it ends the walk with at once.
    #[tactic(auto, using(std::proofs::lemmas::Bool::Decides::nat_tests, crate::proofs::Limits::accepted_of_is_accepted), unfolding(crate::specs::Hear::ends_at_once, crate::specs::Hear::noted, crate::specs::Hear::list_noted, crate::specs::Hear::list_after, crate::specs::Record::levels_of, crate::specs::Marks::levels, crate::specs::Steps::ending_of, crate::specs::Steps::number))]
    #[inline(always)]
    fn note(self, slot: Slot, place: Option<usize>, list: &mut [u64]) -> Result<Walk, Ending>
        requires { IfSome place (λ at. (self.walk.count < 64) × (at < length list.old)) }
        ensures { Notes self.walk slot place list.old result list.new }
    {
        match slot {
            Slot::Silent => Ok(self.walk),
            Slot::Clashed if self.walk.level < LAST_LEVEL => Ok(self.walk.marked()),
            Slot::Clashed => Err(Ending::Twins),
            Slot::Clean(uid) => match place {
                Some(at) => {
                    list[at] = uid;
                    Ok(self.walk.counted())
                }
                None => Err(Ending::Full),
            },
        }
    }

    // The slot in a walk that hears, with the list's place for a clean UID if there is one. Built into both walks: a call would cost either a copy of the record.
    #[inline(always)]
    pub(crate) fn take(self, slot: Slot, place: Option<usize>, list: &mut [u64]) -> Walk
        requires { IfSome place (λ at. (self.walk.count < 64) × (at < length list.old)) }
        ensures { After (walk_after self.walk slot (is_some place)) (list_after self.walk slot (is_some place) (unwrap_or place 0) list.old) result list.new }
    {
        match self.note(slot, place, list) {
            Ok(noted) => pass(noted),
            Err(ending) => self.walk.ended(ending),
        }
    }
}

impl Walk {
    // Hears a slot. Clean UIDs go to the list, of 64 places or more; the bytes are looked at for Kind::Bytes only.
    pub fn hear(self, kind: Kind, bytes: &[u8], list: &mut [u64]) -> Result<Walk, Refusal>
        ensures { Hears self (hearing self kind bytes.now list.old) result list.new }
    {
        refusal(self, list.len())?;
        let accepted = AcceptedWalk { walk: self };
        let slot = accepted.judge(kind, bytes);
        let place = (self.count < 64).then_some(usize::from(self.count));
        Ok(accepted.take(slot, place, list))
    }
}
