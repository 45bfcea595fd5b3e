// The input, read in pieces and taken line by line.
ghost use Rattle.std.specs.Prelude.{IfOk, IfSome};
ghost use Rattle.io.specs.Counts.{IsPrefixLen};

use input::{Source, Told};

// What is read, or none once it is over. The bytes of the piece from `at` to `end` are still to be taken.
#[derive(Drop)]
pub(crate) struct Lines {
    source: Option<Source>,
    piece: [u8; 4096],
    at: usize,
    end: usize,
}

impl Lines {
    pub(crate) fn new(source: Source) -> Lines {
        Lines {
            source: Some(source),
            piece: [0; 4096],
            at: 0,
            end: 0,
        }
    }

    // Takes a byte, or none where the input is over. Where the piece has no more, the next is read.
    fn next_byte(&mut self, rt: &HostRuntime) -> Result<Option<u8>, Told> {
        if self.at >= self.end {
            let Some(source) = &mut self.source else {
                return Ok(None);
            };
            self.end = input::read(rt, source, b"espenknoten-player: input", &mut self.piece)?;
            self.at = 0;
        }
        if self.end == 0 {
            self.source = None;
            return Ok(None);
        }
        let byte = self.piece.get(self.at).copied();
        self.at += 1;
        Ok(byte)
    }

    // Takes a line, up to its line feed or the input's end, and no more of it than there is room for. None where nothing is left.
    pub(crate) fn next_line(
        &mut self,
        rt: &HostRuntime,
        line: &mut [u8],
    ) -> Result<Option<usize>, Told>
        ensures { IfOk result (λ taken. IfSome taken (λ n. IsPrefixLen n line.new)) }
    {
        for (n, place) in line.iter_mut().enumerate() {
            match self.next_byte(rt)? {
                Some(b'\n') => return Ok(Some(n)),
                Some(byte) => *place = byte,
                None => return Ok((n > 0).then_some(n)),
            }
        }
        Ok(Some(line.len()))
    }
}
