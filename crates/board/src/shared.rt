// The list that two racks share, from C: record, rows and marks are changed where they stand. Each call hands the record on by value, and stores the walk that comes
// back.
ghost use Rattle.std.specs.Prelude.{[]};
ghost use Rattle.walk.specs.Shared.{starting, shared_hearing};
ghost use Rattle.walk.specs.declared.Kind.TheVariants.{Silence, Clash, Bytes};
ghost use Rattle.board.specs.Shared.{StartsInPlace, HearsSharedInPlace};

use crate::in_place::step;
use walk::{Kind, Walk};

pub fn ek_shared_start(walk: &mut Walk, rack: u32, family: u16, owners: &mut [u8]) -> i64
    ensures { StartsInPlace (starting walk.old rack family owners.old) result walk.new owners.new }
{
    let next = walk.start_shared(rack, family, owners);
    step(walk, next)
}

pub fn ek_shared_hear_silence(
    walk: &mut Walk,
    rack: u32,
    rows: &mut [u64],
    owners: &mut [u8],
) -> i64
    ensures { HearsSharedInPlace (shared_hearing walk.old rack Silence [] rows.old owners.old) result walk.new rows.new owners.new }
{
    let next = walk.hear_shared(rack, Kind::Silence, &[], rows, owners);
    step(walk, next)
}

pub fn ek_shared_hear_clash(walk: &mut Walk, rack: u32, rows: &mut [u64], owners: &mut [u8]) -> i64
    ensures { HearsSharedInPlace (shared_hearing walk.old rack Clash [] rows.old owners.old) result walk.new rows.new owners.new }
{
    let next = walk.hear_shared(rack, Kind::Clash, &[], rows, owners);
    step(walk, next)
}

pub fn ek_shared_hear_bytes(
    walk: &mut Walk,
    rack: u32,
    bytes: &[u8],
    rows: &mut [u64],
    owners: &mut [u8],
) -> i64
    ensures { HearsSharedInPlace (shared_hearing walk.old rack Bytes bytes.now rows.old owners.old) result walk.new rows.new owners.new }
{
    let next = walk.hear_shared(rack, Kind::Bytes, bytes, rows, owners);
    step(walk, next)
}
