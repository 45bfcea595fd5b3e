// The pieces of a line, as bytes.
ghost use Rattle.std.specs.Prelude.{◌≡◌, not, ◌||◌, [], ◌∷◌, ◌++◌, ◌<◌, eqb};
ghost use Rattle.walk.specs.Record.{is_running};
ghost use Rattle.picture.specs.Drawn.{sign, round_shown};

use digits::digit;
use row::Air;
use walk::Walk;

// No card answers, one does, two or more do.
#[tactic(auto, unfolding(crate::specs::Drawn::sign))]
pub(crate) fn sign(air: Air) -> u8
    ensures { result ≡ sign air }
{
    match air.answers {
        0 => b'.',
        1 => b'o',
        _ => b'#',
    }
}

// Whether a line ends with a slot: its last, or the walk's.
pub(crate) fn ends_line(walk: Walk, next: Walk) -> bool
    ensures { result ≡ (eqb walk.slot 15 || not (is_running next)) }
{
    walk.slot == 15 || next.ending != 0
}

// A round's number and a space.
pub(crate) fn round(n: u64) -> [u8; 6]
    requires { n < 1000 }
    ensures { result ≡ round_shown n ++ 0x20 ∷ [] }
{
    let hundreds = if n < 100 { b' ' } else { digit(n / 100) };
    let tens = if n < 10 { b' ' } else { digit(n / 10 % 10) };
    [b' ', b' ', hundreds, tens, digit(n % 10), b' ']
}
