// The bench program: UIDs, a line each, from standard input or a file; the walk's verdict, rounds and list on standard output.
#![tactic(auto)]

use input::{Source, Told};

// Prints what the bench prints of what is read.
fn run(rt: &HostRuntime, mut source: Source) -> Result<(), Told> {
    // 4096 bytes, more than the 1701 that settle what is printed (printed_of_start, crates/report/proofs/Start.antt)
    let mut room = io::buffer();
    let mut out = [0u8; 1200];
    let n = input::fill(rt, &mut source, b"espenknoten-bench: input", &mut room)?;
    // All of it fits: a refusal prints nothing.
    let printed = report::bench::bench(&room[..n], &mut out).unwrap_or(0);
    let written = rt.write_all(&out[..printed.min(out.len())]);
    input::wrote(rt, b"espenknoten-bench: standard output", written)
}

// Opened before there is room for what is read, so that what opening takes of the stack is free again by then.
fn main(rt: HostRuntime) {
    if let Ok(source) = input::open(&rt, b"usage: espenknoten-bench [FILE]\n") {
        let _told = run(&rt, source);
    }
}
