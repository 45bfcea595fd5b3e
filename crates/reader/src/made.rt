// A request's bytes: flags, command, the UID where it is addressed, the body, the check.
ghost use Rattle.std.specs.Prelude.{◌≡◌, true, cond, ◌∷◌, ◌+◌, ◌≤◌, eqb, length};
ghost use Rattle.std.specs.Result.{OnOk};
ghost use Rattle.lent.specs.Puts.{Puts, PutsAt};
ghost use Rattle.refusals.specs.Number.{number_of, number_back};
ghost use Rattle.reader.specs.Request.{is_addressed, is_for_selected, has_option, flags, address, body, is_asked, is_request, data_fits, make_refusal, Makes};
ghost use Rattle.reader.specs.Steps.{Passes};

use crate::Request;
use crate::owners::copy_all;
use refusals::Refusal;

// The room that any request is asked for: that of 21, addressed, with 32 bytes.
const ROOM_ASKED: usize = 45;

impl Request {
    #[tactic(auto, unfolding(crate::specs::Request::has_option))]
    pub(crate) fn has_option(self) -> bool
        ensures { result ≡ has_option self }
    {
        self.option != 0
    }

    #[tactic(auto, unfolding(crate::specs::Request::is_asked))]
    fn is_asked(self) -> bool
        ensures { result ≡ is_asked self.command }
    {
        matches!(self.command, 0x20..=0x23 | 0x25..=0x2c)
    }

    // Whether the mode is one that the command has: 25 only addressed.
    #[tactic(auto, unfolding(crate::specs::Request::is_addressed))]
    fn mode_fits(self) -> bool
        ensures { result ≡ cond (eqb self.command 0x25) (is_addressed self) true }
    {
        self.command != 0x25 || self.mode == 1
    }

    // Whether number 7 does not refuse the request, whatever its data.
    #[tactic(auto, unfolding(crate::specs::Request::is_request))]
    pub(crate) fn is_request(self) -> bool
        ensures { result ≡ is_request self }
    {
        self.is_asked() && self.mode_fits() && matches!(self.size, 1..=32)
    }

    #[tactic(auto, unfolding(crate::specs::Request::data_fits))]
    fn data_fits(self, written: usize) -> bool
        ensures { result ≡ data_fits self written }
    {
        self.command != 0x21 || written == usize::from(self.size)
    }

    #[tactic(auto, unfolding(crate::specs::Request::make_refusal, crate::specs::Request::room_asked, refusals::specs::Number::number_of, refusals::specs::Number::number))]
    fn may_be_made(self, written: usize, room: usize) -> Result<(), Refusal>
        ensures number { number_of result ≡ make_refusal self written room }
        ensures passes { OnOk result (Passes self written room) }
    {
        if !(self.is_request() && self.data_fits(written)) {
            return Err(Refusal::Unfit);
        }
        if room < ROOM_ASKED {
            return Err(Refusal::Room);
        }
        Ok(())
    }

    // Select or Address, as the mode is.
    #[tactic(auto, unfolding(crate::specs::Request::is_addressed, crate::specs::Request::is_for_selected))]
    fn mode_flag(self) -> u8
        ensures { result ≡ cond (is_addressed self) 0x20 (cond (is_for_selected self) 0x10 0x00) }
    {
        match self.mode {
            0 => 0x00,
            1 => 0x20,
            _ => 0x10,
        }
    }

    #[tactic(auto, unfolding(crate::specs::Request::flags))]
    fn flags(self) -> u8
        ensures { result ≡ flags self }
    {
        let option = if self.has_option() { 0x40 } else { 0x00 };
        0x02 + self.mode_flag() + option
    }

    // Flags and command, with the UID where the request is addressed. Returns the place after them.
    fn put_head(self, room: &mut [u8]) -> usize
        requires { 10 ≤ length room.old }
        ensures { Puts (flags self ∷ self.command ∷ address self) room.old result room.new }
    {
        room[0] = self.flags();
        room[1] = self.command;
        if self.mode == 1 {
            frames::put_field(room, 2, 8, self.uid).unwrap()
        } else {
            2
        }
    }

    // The body at a place. Returns the place after it.
    #[tactic(auto, using(lent::proofs::Puts::puts_byte, lent::proofs::Puts::puts_bytes, lent::proofs::Puts::puts_none), unfolding(crate::specs::Request::body))]
    fn put_body(self, written: &[u8], room: &mut [u8], at: usize) -> usize
        requires request_value { is_request self ≡ true }
        requires written_value { data_fits self (length written.now) ≡ true }
        requires at_in_bounds { at + 33 ≤ length room.old }
        ensures { PutsAt at (body self written.now) room.old result room.new }
    {
        match self.command {
            0x20 | 0x22 => {
                room[at] = self.first;
                at + 1
            }
            0x21 => {
                let end = at + 1 + written.len();
                room[at] = self.first;
                copy_all(&mut room[at + 1..end], written);
                end
            }
            0x23 | 0x2c => {
                room[at] = self.first;
                room[at + 1] = self.n;
                at + 2
            }
            0x27 | 0x29 => {
                room[at] = self.value;
                at + 1
            }
            _ => at,
        }
    }

    // The request's bytes at the start of the room, and how many they are: 4 to 45. What is written is the data of 21, and is not looked at for another command.
    pub fn make(self, written: &[u8], room: &mut [u8]) -> Result<usize, Refusal>
        ensures { Makes self written.now room.old (number_back result) room.new }
    {
        self.may_be_made(written.len(), room.len())?;
        let at = self.put_head(room);
        let n = self.put_body(written, room, at);
        frames::seal(room, n)
    }
}
