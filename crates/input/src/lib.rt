// What a program reads: standard input, or the file that its argument names. A read that fails is told, and is not the end of the input.
#![tactic(auto)]

ghost use Rattle.std.specs.Prelude.{◌≡◌, ◌↔◌, IfOk, IsOk, is_ok};
ghost use Rattle.io.specs.Counts.{IsPrefixLen};

use std::env::{Env, FillError};
use std::fs::File;
use std::io::{Error, ErrorKind, Read, Stdin, Write};

// What is read from.
#[derive(Drop)]
pub enum Source {
    Standard(Stdin),
    Named(File),
}

// Something failed, and that was told on standard error.
#[derive(Clone, Copy, Debug, PartialEq, Eq)]
pub struct Told;

// Tells on standard error why something under a name failed. What can't be told is let go.
fn tell(rt: &HostRuntime, name: &[u8], error: Error) -> Told {
    let _told = rt.stderr().write_all(name).is_ok() && eprintln!(rt; ": {error}").is_ok();
    Told
}

// Whether what was written under a name was written; a failure is told.
pub fn wrote(rt: &HostRuntime, name: &[u8], outcome: std::io::Result<()>) -> Result<(), Told>
    ensures { is_ok result ≡ is_ok outcome }
{
    outcome.map_err(|error| tell(rt, name, error))
}

// What is read: standard input, or the file that the only argument names. Else the reason and the usage are told.
pub fn open(rt: &HostRuntime, usage: &[u8]) -> Result<Source, Told> {
    if !is_given(rt, 1) {
        return Ok(Source::Standard(rt.stdin()));
    }
    let file = if is_given(rt, 2) {
        Err(Told)
    } else {
        open_named(rt)
    };
    named(rt, usage, file)
}

// A file that was opened, as what is read. One that was not is not read, nor anything in its place: the usage is told.
fn named(rt: &HostRuntime, usage: &[u8], file: Result<File, Told>) -> Result<Source, Told>
    ensures { IsOk result ↔ IsOk file }
{
    let Ok(file) = file else {
        let _told = rt.stderr().write_all(usage).is_ok();
        return Err(Told);
    };
    Ok(Source::Named(file))
}

// Whether there is an argument of a number.
fn is_given(rt: &HostRuntime, number: usize) -> bool {
    let mut one = [0u8; 1];
    !matches!(rt.arg(number, &mut one), Err(FillError::NotPresent))
}

// Opens the file that the first argument names. A reason why not is told.
fn open_named(rt: &HostRuntime) -> Result<File, Told> {
    let mut path = io::buffer();
    let Ok(n) = rt.arg(1, &mut path) else {
        return Err(tell(rt, b"the file's name", ErrorKind::InvalidFilename.into()));
    };
    let name = &path[..n];
    let Ok(text) = std::str::from_utf8(name) else {
        return Err(tell(rt, name, ErrorKind::InvalidFilename.into()));
    };
    File::open(rt, text).map_err(|error| tell(rt, name, error))
}

impl Read for Source {
    fn read(&mut self, room: &mut [u8]) -> std::io::Result<usize> {
        match self {
            Source::Standard(stdin) => stdin.read(room),
            Source::Named(file) => file.read(room),
        }
    }
}

// Reads once, and again as long as signals come. A proved loop ends: the turns count down from a number that no run uses up.
fn read_once(source: &mut Source, room: &mut [u8]) -> std::io::Result<usize>
    ensures { IfOk result (λ n. IsPrefixLen n room.new) }
{
    for _ in 0..u64::MAX {
        match source.read(room) {
            Err(error) if error.kind() == ErrorKind::Interrupted => {}
            outcome => return outcome,
        }
    }
    Err(ErrorKind::Interrupted.into())
}

// Reads what is there into the room, and returns how many bytes came, none at the end of the input. A failure is told under a name.
pub fn read(
    rt: &HostRuntime,
    source: &mut Source,
    name: &[u8],
    room: &mut [u8],
) -> Result<usize, Told>
    ensures { IfOk result (λ n. IsPrefixLen n room.new) }
{
    read_once(source, room).map_err(|error| tell(rt, name, error))
}

// Reads until the room is full, the input ends or a read fails, and returns how many bytes came.
pub fn fill(
    rt: &HostRuntime,
    source: &mut Source,
    name: &[u8],
    room: &mut [u8],
) -> Result<usize, Told>
    ensures { IfOk result (λ n. IsPrefixLen n room.new) }
{
    let mut done = 0;
    while done < room.len() {
        match read(rt, source, name, &mut room[done..])? {
            0 => break,
            n => done += n,
        }
    }
    Ok(done)
}
