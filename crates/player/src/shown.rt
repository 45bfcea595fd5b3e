// What is read of an answer, printed.
ghost use Rattle.std.specs.Prelude.{◌≤◌, ◌++◌, take};
ghost use Rattle.digits.specs.Digits.{hex_digits};
ghost use Rattle.digits.specs.Rows.{row_text};
ghost use Rattle.player.specs.Text.{Grows};
ghost use Rattle.player.specs.Shown.{shape_text, information_text, lock_text, blocks_text, reading_text};

use crate::told::Text;
use reader::{Information, Reading};
use refusals::Refusal;

impl Text {
    // Adds a name and up to sixteen low digits of a number.
    fn put_digits(&mut self, name: &[u8], n: u64, count: usize)
        requires { count ≤ 16 }
        ensures { Grows (name.now ++ hex_digits count n) self.old self.new }
    {
        let mut digits = [0u8; 16];
        // Sixteen bytes have room for the digits.
        let _ = digits::put_digits(n, count, &mut digits, 0);
        self.put(name);
        self.put(&digits[..count]);
    }

    // Adds a name and the row for the first n bytes.
    fn put_first(&mut self, name: &[u8], n: usize, bytes: &[u8])
        ensures { Grows (name.now ++ row_text (take n bytes.now)) self.old self.new }
    {
        self.put_named(name, &bytes[..n.min(bytes.len())]);
    }

    fn put_shape(&mut self, blocks: u16, size: u16)
        ensures { Grows (shape_text blocks size) self.old self.new }
    {
        self.put_digits(b", blocks ", u64::from(blocks), 4);
        self.put_digits(b", size ", u64::from(size), 2);
    }

    fn put_information(&mut self, shown: Information)
        ensures { Grows (information_text shown) self.old self.new }
    {
        self.put_digits(b"\ninformation UID ", shown.uid, 16);
        self.put_pair(b", DSFID", shown.dsfid);
        self.put_pair(b", AFI", shown.afi);
        self.put_shape(shown.blocks, shown.size);
        self.put_pair(b", IC", shown.ic_reference);
    }

    // So many lock bytes of blocks, if there are any.
    #[tactic(auto, unfolding(crate::specs::Shown::lock_text))]
    fn put_locks(&mut self, n: usize, locks: &[u8])
        ensures { Grows (lock_text n locks.now) self.old self.new }
    {
        if n > 0 {
            self.put_first(b", lock bytes", n, locks);
        }
    }

    fn put_read_blocks(&mut self, n: usize, blocks: &[u8], asked: usize, locks: &[u8])
        ensures { Grows (blocks_text n blocks.now asked locks.now) self.old self.new }
    {
        self.put_first(b"\nblocks", n, blocks);
        self.put_locks(asked, locks);
    }

    // What was read, on the next line. Asked is how many lock bytes the blocks have with them.
    #[tactic(auto, unfolding(crate::specs::Shown::reading_text))]
    pub(crate) fn put_reading(
        &mut self,
        reading: Result<Reading, Refusal>,
        blocks: &[u8],
        asked: usize,
        locks: &[u8],
    )
        ensures { Grows (reading_text reading blocks.now asked locks.now) self.old self.new }
    {
        match reading {
            Err(_) => self.put(b"\nnot read"),
            Ok(Reading::Error(code)) => self.put_pair(b"\nerror", code),
            Ok(Reading::Done) => self.put(b"\ndone"),
            Ok(Reading::Blocks(n)) => self.put_read_blocks(n as usize, blocks, asked, locks),
            Ok(Reading::Locks(n)) => self.put_first(b"\nlock bytes", n as usize, locks),
            Ok(Reading::System(shown)) => self.put_information(shown),
        }
    }
}
