// The picture: an input read, its walk drawn, and what the bench prints of it.
ghost use Rattle.refusals.specs.Number.{number_back};
ghost use Rattle.picture.specs.Drawn.{Pictures};

use crate::drawing::draw;
use lines::read;
use refusals::Refusal;
use report::bench::bench;

// Room for all that can be drawn and printed.
const MOST_PICTURED: usize = 17943;

// Draws what the input asks for into the room, then prints what the bench prints, and returns how many bytes.
pub fn picture(input: &[u8], out: &mut [u8]) -> Result<usize, Refusal>
    ensures { Pictures input.now out.old (number_back result) out.new }
{
    if out.len() < MOST_PICTURED {
        return Err(Refusal::Room);
    }
    let lines = read(input);
    if lines.bad != 0 {
        return bench(input, out);
    }
    let at = draw(lines.uids, lines.count, out);
    let printed = bench(input, &mut out[at..])?;
    Ok(at + printed)
}
