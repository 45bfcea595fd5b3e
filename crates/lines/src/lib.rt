// The lines of an input: a UID each, read byte by byte up to the first wrong one.
#![tactic(auto)]

ghost use Rattle.std.specs.Prelude.{◌≡◌, ◌≤◌};
ghost use Rattle.lines.specs.Input.{begins_e0};
ghost use Rattle.lines.specs.Lines.{fresh_lines, wrong, line_ended, stepped, read_from};

use digits::digit_of;

// The UIDs of the lines so far, how many bytes the line that has begun has, the number that they stand for, and the wrong line, or 0 as in `bad_line`.
#[derive(Clone, Copy)]
pub struct Lines {
    pub uids: [u64; 100],
    pub count: usize,
    pub digits: usize,
    pub number: u64,
    pub bad: usize,
}

impl Lines {
    #[tactic(auto, unfolding(crate::specs::Lines::no_lines, crate::specs::Lines::fresh_lines))]
    fn fresh() -> Lines
        ensures { result ≡ fresh_lines }
    {
        Lines {
            uids: [0; 100],
            count: 0,
            digits: 0,
            number: 0,
            bad: 0,
        }
    }

    // A byte of the input: it ends the line that has begun, or is a digit more of it, or the line is wrong.
    fn take(&mut self, b: u8)
        requires { self.old.count ≤ 100 }
        ensures { self.new ≡ stepped self.old b }
    {
        if b == b'\n' {
            self.end();
            return;
        }
        match digit_of(b) {
            Some(d) if self.count < 100 && self.digits < 16 => {
                self.digits += 1;
                self.number = (self.number << 4) + u64::from(d);
                self.bad = 0;
            }
            _ => self.wrong(),
        }
    }

    // The line that has begun ends: it is a UID, of 16 digits that begin with E0, or wrong.
    fn end(&mut self)
        requires { self.old.count ≤ 100 }
        ensures { self.new ≡ line_ended self.old }
    {
        if self.count < 100 && self.digits == 16 && begins_e0(self.number) {
            self.uids[self.count] = self.number;
            self.count += 1;
            self.digits = 0;
            self.number = 0;
            self.bad = 0;
        } else {
            self.wrong();
        }
    }

    // The line that has begun is wrong.
    #[tactic(auto, unfolding(crate::specs::Lines::wrong))]
    fn wrong(&mut self)
        requires { self.old.count ≤ 100 }
        ensures { self.new ≡ wrong self.old }
    {
        self.bad = self.count + 1;
    }
}

// "All UIDs begin with E0": the first two of 16 digits.
fn begins_e0(number: u64) -> bool
    ensures { result ≡ begins_e0 number }
{
    number >> 56 == 0xE0
}

// All lines up to the first wrong one. The end of the input ends a line that has begun.
pub fn read(input: &[u8]) -> Lines
    ensures { result ≡ read_from fresh_lines input.now }
{
    let mut lines = Lines::fresh();
    for b in input {
        lines.take(*b);
        if lines.bad != 0 {
            return lines;
        }
    }
    if lines.digits != 0 {
        lines.end();
    }
    lines
}
