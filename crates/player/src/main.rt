// Plays one card from a script, and prints what the card says. docs/man/espenknoten-player.1 tells the script.
#![tactic(auto)]

mod ask;
mod lines;
mod script;
mod shown;
mod tag;
mod told;

use input::Told;
use lines::Lines;
use script::Stop;
use told::Text;

// Plays line after line. A proved loop ends, and nothing says that the input does: the lines count up to a number that no run reaches.
fn play_all(rt: &HostRuntime, lines: &mut Lines) -> Result<(), Told> {
    let mut line = [0u8; 257];
    let mut tag = None;
    let mut text = Text::new();
    for number in 1..=u64::MAX {
        let Some(n) = lines.next_line(rt, &mut line)? else {
            break;
        };
        match script::hear(rt, &line[..n], &mut tag, &mut text) {
            Ok(()) => {}
            Err(Stop::BadLine) => return text.tell_bad_line(rt, number),
            Err(Stop::Failed(told)) => return Err(told),
        }
    }
    Ok(())
}

// Plays what is read.
fn run(rt: &HostRuntime) -> Result<(), Told> {
    let source = input::open(rt, b"usage: espenknoten-player [SCRIPT]\n")?;
    let mut lines = Lines::new(source);
    play_all(rt, &mut lines)
}

fn main(rt: HostRuntime) {
    let _told = run(&rt);
}
