// The draw program: UIDs, a line each, from standard input or a file; the walk drawn, and what the bench prints of it, on standard output.
#![tactic(auto)]

use input::{Source, Told};

// Draws the walk over what is read, and prints what the bench prints of it.
fn run(rt: &HostRuntime, mut source: Source) -> Result<(), Told> {
    // 4096 bytes, more than the 1701 that settle what is drawn and printed (pictured_of_start, crates/picture/proofs/Start.antt)
    let mut room = io::buffer();
    let mut out = [0u8; 17943];
    let n = input::fill(rt, &mut source, b"espenknoten-draw: input", &mut room)?;
    // All of it fits: a refusal prints nothing.
    let pictured = picture::picture::picture(&room[..n], &mut out).unwrap_or(0);
    let written = rt.write_all(&out[..pictured.min(out.len())]);
    input::wrote(rt, b"espenknoten-draw: standard output", written)
}

// Opened before there is room for what is read, so that what opening takes of the stack is free again by then.
fn main(rt: HostRuntime) {
    if let Ok(source) = input::open(&rt, b"usage: espenknoten-draw [FILE]\n") {
        let _told = run(&rt, source);
    }
}
