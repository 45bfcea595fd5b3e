// Two racks, one list: 64 rows for both walks, and beside each row the mark of the rack that owns it.
ghost use Rattle.std.specs.Prelude.{◌≡◌, ◌+◌, ◌<◌, ◌≤◌, cond, eqb, length, IfSome, IfOk};
ghost use Rattle.refusals.specs.Number.{number_of};
ghost use Rattle.walk.specs.Shared.{rows_with, owners_fit, start_refusal, hear_refusal, freed, starting, Starts, shared_hearing, HearsShared};
ghost use Rattle.walk.specs.Steps.{shares_of, counts_fit, IsLowestFree, IsRowFor, owned, AfterRow};

use crate::hear::refusal;
use crate::{AcceptedWalk, Kind, Slot, Walk};
use refusals::Refusal;

// The mark of a free row; a rack's mark is its number.
const FREE: u8 = 255;
// The most rows that a rack may own.
const MOST_ROWS: u8 = 40;

// How many rows are free, how many rack 0 owns, and how many rack 1.
#[derive(Clone, Copy)]
pub(crate) struct Shares {
    pub free: u8,
    pub first: u8,
    pub second: u8,
}

fn count_marks(marks: &[u8; 64]) -> Shares
    ensures { result ≡ shares_of marks.now }
{
    let mut free = 0u8;
    let mut first = 0u8;
    let mut second = 0u8;
    for &owner in marks {
        free += u8::from(owner == FREE);
        first += u8::from(owner == 0);
        second += u8::from(owner == 1);
    }
    Shares {
        free,
        first,
        second,
    }
}

// Each of the 64 marks is one of the three, where there are as many of these.
fn are_marks(shares: Shares) -> bool
    requires { shares.free + shares.first + shares.second ≤ 64 }
    ensures { result ≡ eqb (shares.free + shares.first + shares.second) 64 }
{
    shares.free + shares.first + shares.second == 64
}

// No rack owns too many, and the walk counts those of its own.
#[tactic(auto, using(std::proofs::lemmas::Bool::Decides::nat_tests), unfolding(crate::specs::Steps::counts_fit))]
fn shares_fit(shares: Shares, rack: u32, count: u8) -> bool
    ensures { result ≡ counts_fit shares rack count }
{
    let own = if rack == 0 {
        shares.first
    } else {
        shares.second
    };
    (shares.first <= MOST_ROWS) & (shares.second <= MOST_ROWS) & (count == own)
}

// Whose the rows are, where there are 64 marks and each is one of the three.
#[tactic(auto, using(std::proofs::lemmas::Bool::Decides::nat_tests, crate::proofs::SharedTests::owners_few, crate::proofs::SharedTests::owners_told, crate::proofs::OwnersSteps::shares_alone), unfolding(refusals::specs::Number::number, refusals::specs::Number::number_of))]
fn shared_by(owners: &[u8]) -> Result<Shares, Refusal>
    ensures number { number_of result ≡ cond (owners_fit owners.now) 0 5 }
    ensures shares { IfOk result (λ shares. (64 ≤ length owners.now) × (shares ≡ shares_of owners.now)) }
{
    let Some(marks) = owners.first_chunk() else {
        return Err(Refusal::List);
    };
    let shares = count_marks(marks);
    if !are_marks(shares) {
        return Err(Refusal::List);
    }
    Ok(shares)
}

#[tactic(auto, using(std::proofs::lemmas::Bool::Decides::nat_tests), unfolding(crate::specs::Shared::start_refusal, crate::specs::Shared::is_rack, refusals::specs::Number::number, refusals::specs::Number::number_of))]
fn start_refusal(rack: u32, owners: &[u8]) -> Result<(), Refusal>
    ensures { number_of result ≡ start_refusal rack owners.now }
{
    if 1 < rack {
        return Err(Refusal::Rack);
    }
    shared_by(owners)?;
    Ok(())
}

#[tactic(auto, using(std::proofs::lemmas::Bool::Decides::nat_tests, crate::proofs::SharedTests::rack_refused, crate::proofs::SharedTests::list_refused, crate::proofs::SharedTests::list_served, crate::proofs::SharedTests::shares_told), unfolding(refusals::specs::Number::number, refusals::specs::Number::number_of))]
fn hear_refusal(walk: Walk, rack: u32, rows: usize, owners: &[u8]) -> Result<(), Refusal>
    ensures { number_of result ≡ hear_refusal walk rack rows owners.now }
{
    if 1 < rack {
        return Err(Refusal::Rack);
    }
    refusal(walk, rows)?;
    let shares = shared_by(owners)?;
    if !shares_fit(shares, rack, walk.count) {
        return Err(Refusal::WalkRecord);
    }
    Ok(())
}

// The rack's rows are free.
fn free_rows(rack: u8, owners: &mut [u8])
    requires { 64 ≤ length owners.old }
    ensures { owners.new ≡ freed rack owners.old }
{
    for owner in &mut owners[..64] {
        if *owner == rack {
            *owner = FREE;
        }
    }
}

// The lowest free row, if there is one.
#[tactic(auto, using(crate::proofs::OwnersSteps::lowest_free_told))]
fn lowest_free(marks: &[u8; 64]) -> Option<usize>
    ensures { IsLowestFree result marks.now }
{
    marks.iter().position(|&owner| owner == FREE)
}

// The row for a clean UID, where the rack may own one more and one is free. No other slot needs one.
#[tactic(auto, using(crate::proofs::SharedWays::row_found, crate::proofs::SharedWays::row_full), unfolding(crate::specs::Steps::IsRowFor))]
fn row_for(walk: Walk, slot: Slot, marks: &[u8; 64]) -> Option<usize>
    ensures { IsRowFor walk slot result marks.now }
{
    match slot {
        Slot::Silent | Slot::Clashed => None,
        Slot::Clean(_) if walk.count < MOST_ROWS => lowest_free(marks),
        Slot::Clean(_) => None,
    }
}

// The row that is taken is the rack's.
#[tactic(auto, unfolding(crate::specs::Steps::owned))]
fn own(place: Option<usize>, rack: u8, owners: &mut [u8])
    requires { IfSome place (λ at. at < length owners.old) }
    ensures { owners.new ≡ owned place rack owners.old }
{
    if let Some(at) = place {
        owners[at] = rack;
    }
}

impl AcceptedWalk {
    // The slot in a walk that hears, over a list that is accepted.
    fn take_row(self, rack: u8, slot: Slot, rows: &mut [u64], owners: &mut [u8]) -> Walk
        requires in_bounds { 64 ≤ length rows.old }
        requires in_bounds_2 { 64 ≤ length owners.old }
        requires count_value { self.walk.count ≡ rows_with rack owners.old }
        ensures { AfterRow self.walk rack slot rows.old owners.old result rows.new owners.new }
    {
        let place = owners
            .first_chunk()
            .and_then(|marks| row_for(self.walk, slot, marks));
        own(place, rack, owners);
        self.take(slot, place, rows)
    }
}

impl Walk {
    // Starts a rack's walk anew over a list that two racks share: its rows are free. Refused, the walk that stood there stays.
    pub fn start_shared(self, rack: u32, family: u16, owners: &mut [u8]) -> Result<Walk, Refusal>
        ensures { Starts self (starting self rack family owners.old) result owners.new }
    {
        start_refusal(rack, owners)?;
        free_rows(rack as u8, owners);
        Ok(Walk::start(family))
    }

    // Hears a slot on a rack. A clean UID goes into the lowest free row, whose mark is then the rack's.
    pub fn hear_shared(
        self,
        rack: u32,
        kind: Kind,
        bytes: &[u8],
        rows: &mut [u64],
        owners: &mut [u8],
    ) -> Result<Walk, Refusal>
        ensures { HearsShared self (shared_hearing self rack kind bytes.now rows.old owners.old) result rows.new owners.new }
    {
        hear_refusal(self, rack, rows.len(), owners)?;
        let accepted = AcceptedWalk { walk: self };
        let slot = accepted.judge(kind, bytes);
        Ok(accepted.take_row(rack as u8, slot, rows, owners))
    }
}
