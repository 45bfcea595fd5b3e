// The clash marks: for each level a number whose bit s says that slot s clashed and waits.
ghost use Rattle.std.specs.Prelude.{◌≡◌, ◌^◌, ◌<◌};
ghost use Rattle.walk.specs.Steps.{levels_to};
ghost use Rattle.walk.specs.Marks.{waits, with_mark, without_mark, lowest, deepest};

use crate::LEVELS;

// The number of slot s alone.
#[tactic(auto, using(crate::proofs::Levels::power_at))]
fn power(s: u8) -> u16
    requires { s < 16 }
    ensures { result ≡ 2 ^ s }
{
    1u16 << s
}

#[tactic(auto, using(std::proofs::lemmas::Bool::Decides::nat_tests), unfolding(crate::specs::Marks::waits))]
fn waits(m: u16, s: u8) -> bool
    requires { s < 16 }
    ensures { result ≡ waits m s }
{
    m / power(s) % 2 == 1
}

#[tactic(auto, using(crate::proofs::Levels::mark_fits), unfolding(crate::specs::Marks::with_mark))]
pub(crate) fn with_mark(m: u16, s: u8) -> u16
    requires { s < 16 }
    ensures { result ≡ with_mark m s }
{
    if waits(m, s) { m } else { m + power(s) }
}

#[tactic(auto, using(crate::proofs::Levels::mark_stands), unfolding(crate::specs::Marks::without_mark))]
pub(crate) fn without_mark(m: u16, s: u8) -> u16
    requires { s < 16 }
    ensures { result ≡ without_mark m s }
{
    if waits(m, s) { m - power(s) } else { m }
}

// The lowest slot that waits.
#[tactic(auto, using(crate::proofs::Levels::lowest_least))]
pub(crate) fn lowest(m: u16) -> u8
    ensures { result ≡ lowest m }
{
    m.trailing_zeros().min(15) as u8
}

// The deepest level with a mark.
#[tactic(auto, using(crate::proofs::Levels::deepest_told))]
pub(crate) fn deepest(marks: &[u16; LEVELS]) -> Option<usize>
    ensures { levels_to result ≡ deepest marks.now }
{
    marks.iter().rposition(|&mark| mark != 0)
}
