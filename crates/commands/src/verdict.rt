// What a request comes to, said without the record; and the record after it.
ghost use Rattle.std.specs.Prelude.{◌≡◌, false};
ghost use Rattle.commands.specs.Verdict.{verdict, changed, kept, made, turned};

use crate::{Deed, Effect};
use card::{Card, Held, Mode, Reply};

// What changes in the record: the mode, the AFI or the DSFID with its lock.
#[derive(Clone, Copy)]
pub(crate) enum Change {
    Nothing,
    InMode(Mode),
    Afi(u8, bool),
    Dsfid(u8, bool),
}

// A change, an effect, an answer, and whether the answer is held.
#[derive(Clone, Copy)]
pub(crate) struct Verdict {
    pub(crate) change: Change,
    pub(crate) effect: Effect,
    pub(crate) reply: Reply,
    pub(crate) hold: bool,
}

impl Verdict {
    // An answer alone.
    pub(crate) fn answer(reply: Reply) -> Verdict
        ensures { result ≡ verdict Change.Nothing Effect.Leave reply false }
    {
        Verdict {
            change: Change::Nothing,
            effect: Effect::Leave,
            reply,
            hold: false,
        }
    }

    // Silence, in another mode if the test holds.
    #[tactic(auto, unfolding(crate::specs::Verdict::turned))]
    pub(crate) fn turn_if(test: bool, mode: Mode) -> Verdict
        ensures { result ≡ turned test mode }
    {
        let silent = Verdict::answer(Reply::Silence);
        if test {
            Verdict {
                change: Change::InMode(mode),
                ..silent
            }
        } else {
            silent
        }
    }

    // Success, at once or held.
    pub(crate) fn succeed(hold: bool, change: Change, effect: Effect) -> Verdict
        ensures { result ≡ verdict change effect Reply.Done hold }
    {
        Verdict {
            change,
            effect,
            reply: Reply::Done,
            hold,
        }
    }

    // An error code, at once or held.
    pub(crate) fn fail(hold: bool, code: u8) -> Verdict
        ensures { result ≡ verdict Change.Nothing Effect.Leave (Reply.Error code) hold }
    {
        Verdict {
            hold,
            ..Verdict::answer(Reply::Error(code))
        }
    }

    // The record after a verdict, with its effect and its answer.
    #[tactic(auto, unfolding(crate::specs::Verdict::made))]
    pub(crate) fn carry(self, card: Card) -> Deed
        ensures { result ≡ made card self }
    {
        let card = changed(card, self.change);
        if self.hold {
            Deed {
                card: card.holding(kept(self.reply)),
                effect: self.effect,
                reply: Reply::Silence,
            }
        } else {
            Deed {
                card,
                effect: self.effect,
                reply: self.reply,
            }
        }
    }
}

#[tactic(auto, unfolding(crate::specs::Verdict::changed))]
fn changed(card: Card, change: Change) -> Card
    ensures { result ≡ changed card change }
{
    match change {
        Change::Nothing => card,
        Change::InMode(mode) => card.in_mode(mode),
        Change::Afi(afi, locked) => card.with_afi(afi, locked),
        Change::Dsfid(dsfid, locked) => card.with_dsfid(dsfid, locked),
    }
}

// The answer as it is held: an error code, else success.
#[tactic(auto, unfolding(crate::specs::Verdict::kept))]
fn kept(reply: Reply) -> Held
    ensures { result ≡ kept reply }
{
    match reply {
        Reply::Error(code) => Held::Code(code),
        _ => Held::Success,
    }
}
