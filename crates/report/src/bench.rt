// The bench: an input read, its cards played, and what is printed.
ghost use Rattle.refusals.specs.Number.{number_back};
ghost use Rattle.report.specs.Bench.{Prints};

use crate::output::{put_complaint, put_report};
use lines::read;
use refusals::Refusal;
use row::play::play;

// Room for all that can be printed.
const MOST_PRINTED: usize = 1200;

// Prints what the input asks for into the room, and returns how many bytes.
pub fn bench(input: &[u8], out: &mut [u8]) -> Result<usize, Refusal>
    ensures { Prints input.now out.old (number_back result) out.new }
{
    if out.len() < MOST_PRINTED {
        return Err(Refusal::Room);
    }
    let lines = read(input);
    if lines.bad != 0 {
        return Ok(put_complaint(lines.bad, out));
    }
    Ok(put_report(&play(lines.uids, lines.count), out))
}
