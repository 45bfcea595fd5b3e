// What to send: a round's request, a slot mark, or nothing.
ghost use Rattle.std.specs.Prelude.{◌≡◌, ◌<◌, ◌≤◌, ltb, length};
ghost use Rattle.lent.specs.Puts.{Puts};
ghost use Rattle.refusals.specs.Number.{number_of};
ghost use Rattle.walk.specs.Ask.{request_head, request_body, request, sent, room_asked, room_after, refusal, asking, Asks};

use crate::{AcceptedWalk, Asked, Send, Walk};
use refusals::Refusal;

#[tactic(auto, using(std::proofs::lemmas::Bool::Decides::nat_tests))]
fn has_family(family: u16) -> bool
    ensures { result ≡ ltb family 256 }
{
    family < 256
}

// Flags and command, with the family if there is one. Returns the place after them.
fn put_head(walk: Walk, room: &mut [u8]) -> usize
    requires { 3 ≤ length room.old }
    ensures { Puts (request_head walk) room.old result room.new }
{
    room[1] = 0x01;
    if has_family(walk.family) {
        room[0] = 0x16;
        room[2] = walk.family as u8;
        return 3;
    }
    room[0] = 0x06;
    2
}

#[tactic(auto, using(std::proofs::lemmas::Bool::Decides::nat_tests), unfolding(crate::specs::Ask::refusal, crate::specs::Ask::sent, crate::specs::Ask::room_asked, crate::specs::Record::is_running, refusals::specs::Number::number, refusals::specs::Number::number_of))]
fn refusal(walk: Walk, room: usize) -> Result<(), Refusal>
    ensures { number_of result ≡ refusal walk room }
{
    if !walk.is_accepted() {
        return Err(Refusal::WalkRecord);
    }
    // Test by test and not by `&&`: a slot mark is told sooner so.
    if walk.ending != 0 {
        return Ok(());
    }
    if walk.slot != 0 {
        return Ok(());
    }
    if room < 14 {
        return Err(Refusal::Room);
    }
    Ok(())
}

impl AcceptedWalk {
    // The head, the mask's length and the mask, for which there is room. Returns the place after them.
    #[tactic(auto, using(crate::proofs::Limits::level_few))]
    fn put_body(self, room: &mut [u8]) -> usize
        requires { 14 ≤ length room.old }
        ensures { Puts (request_body self.walk) room.old result room.new }
    {
        let at = put_head(self.walk, room);
        let n = 4 * self.walk.level;
        let bytes = slots::mask_bytes(n);
        room[at] = n;
        let _ = frames::put_field(room, at + 1, bytes, self.walk.mask());
        at + 1 + bytes
    }

    // How long the round's request is.
    #[tactic(auto, using(crate::proofs::Limits::level_few))]
    fn request_length(self) -> usize
        ensures { result ≡ length (request self.walk) }
    {
        let bytes = slots::mask_bytes(4 * self.walk.level);
        if has_family(self.walk.family) {
            bytes + 6
        } else {
            bytes + 5
        }
    }

    #[tactic(auto, using(std::proofs::lemmas::Bool::Decides::nat_tests), unfolding(crate::specs::Ask::sent, crate::specs::Record::is_running))]
    fn send(self) -> Send
        ensures { result ≡ sent self.walk }
    {
        if self.walk.ending != 0 {
            return Send::Nothing;
        }
        if self.walk.slot == 0 {
            return Send::Request(self.request_length());
        }
        Send::Mark
    }

    // Puts the request into the room, which is long enough, if one is to be sent.
    #[tactic(auto, using(crate::proofs::AskWays::room_of_request), unfolding(crate::specs::Ask::room_after, crate::specs::Ask::room_asked))]
    fn fill(self, send: Send, room: &mut [u8])
        requires { room_asked send ≤ length room.old }
        ensures { room.new ≡ room_after self.walk send room.old }
    {
        match send {
            Send::Nothing | Send::Mark => {}
            Send::Request(_) => {
                let n = self.put_body(room);
                let _ = frames::seal(room, n);
            }
        }
    }
}

impl Walk {
    // What to send. It may be asked often; a request has 13 bytes at the most, and asks for room for 14.
    pub fn ask(self, room: &mut [u8]) -> Result<Asked, Refusal>
        ensures { Asks self (asking self room.old) result room.new }
    {
        refusal(self, room.len())?;
        let accepted = AcceptedWalk { walk: self };
        let send = accepted.send();
        accepted.fill(send, room);
        Ok(Asked { walk: self, send })
    }
}
