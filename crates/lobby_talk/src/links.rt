//! Who changes players' links, adds players, puts an arbiter's decisions down, and keeps what he halts.
ghost use Rattle.std.specs.Prelude.{List, Option, None, ◌≡◌, IfSome, OnOk};
ghost use Rattle.std.specs.String.{string_bytes};
ghost use Rattle.lobby_words.specs.Players.{IsCarriedOut};
ghost use Rattle.lobby_players.specs.Halts.{Halted, halted};
ghost use Rattle.lobby_talk.specs.Deciding.{Decision, IsPut};
ghost use Rattle.lobby_talk.specs.Talking.{Changed, IsMadeIn, IsToldLast};

use lobby_desk::{Halts, Order};
use lobby_words::{Linked, Player};
use std::io;

/// Keeps the players' file, by which links hold, beside it whether entries are paused, and why all clocks are stopped.
pub trait KeepsLinks {
    /// The decisions that were put, in their order, where they are known.
    ghost decided: { Self → Option (List Decision) } = { λ _. None };

    /// The changes of the players' file that were made, in their order, where they are known.
    ghost changed: { Self → Option (List Changed) } = { λ _. None };

    /// What it was told last that is halted, where that is known.
    ghost last_halts: { Self → Option Halted } = { λ _. None };

    /// Gives one of these players a new link, or closes it, in the file: the old one holds no more; or puts one more
    /// there, of this full name. It answers once the file is on the disk, by the players from then on and the token of
    /// the new link: they are these, but that the player of the order, who may be new, has this token, which none of
    /// them had. `None` where that was not done, as where the file has other players, and the file is as it was.
    fn change(&mut self, order: &Order, full_name: &str, players: &[Player]) -> Option<Linked>
        ensures linked { IfSome result (λ linked. IsCarriedOut order.now full_name.now
            (string_bytes linked.token) players.now linked.players.items) }
        ensures changed { IsMadeIn order.now full_name.now result (changed self.old) (changed self.new) }
        ensures decided { decided self.new ≡ decided self.old };

    /// Puts the decision of a message to those of its round: of this arbiter, who is one of these players. It answers
    /// once it is on the disk, and `false` where that was not done: then the decisions are as they were.
    fn decide(&mut self, arbiter: &str, text: &str, players: &[Player]) -> bool
        ensures put { IsPut result arbiter.now text.now (decided self.old) (decided self.new) }
        ensures changed { changed self.new ≡ changed self.old };

    /// This is halted now. It is told so in each turn, before browsers are told what came of it. Where it fails, since
    /// clocks would run that browsers are told to stand still, or stand still, the lobby ends.
    fn keep(&mut self, halts: &Halts) -> io::Result<()>
        ensures decided { decided self.new ≡ decided self.old }
        ensures changed { changed self.new ≡ changed self.old }
        ensures kept { OnOk result (IsToldLast (halted halts.now) (last_halts self.new)) };
}
