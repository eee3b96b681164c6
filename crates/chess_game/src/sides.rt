ghost use Rattle.std.specs.Prelude.{◌≡◌, ◌≤◌, [], ◌∷◌, false};
ghost use Rattle.chess_bits.specs.Man.{other};
ghost use Rattle.chess_clock.specs.declared.events.ClockEvent.TheVariants.{WrongClaim};
ghost use Rattle.chess_clock.specs.ClockState.{clock_after, turn_ended, HasFallen, TimesFit};
ghost use Rattle.chess_game.specs.Sides.{offering, turn_over, stopped, stopped_if, with_wrong_claim, sides_with_player};
ghost use Rattle.chess_game.specs.Sides.{seat_kept};

use chess_bits::Colour;
use chess_clock::Clock;
use chess_end::Ending;
use rec_codec::Name;

/// Who plays a side, and whether an offer of a draw by it stands.
#[derive(Clone, Copy)]
pub struct Seat {
    pub name: Option<Name>,
    pub offers: bool,
}

/// The two sides of a game: the clock, who plays, what they have offered and claimed, and how the game ended.
#[derive(Clone, Copy)]
pub struct Sides {
    pub clock: Clock,
    pub white: Seat,
    pub black: Seat,
    pub claimed: bool,
    pub ending: Option<Ending>,
}

impl Sides {
    /// The seat of a side.
    pub fn seat(&self, colour: Colour) -> Seat
        ensures { result ≡ seat_kept colour self.now }
    {
        match colour {
            Colour::White => self.white,
            Colour::Black => self.black,
        }
    }

    /// Gives the empty seats to a player.
    pub fn seat_player(&mut self, name: Name)
        ensures { self.new ≡ sides_with_player name self.old }
    {
        self.white.name = Some(self.white.name.unwrap_or(name));
        self.black.name = Some(self.black.name.unwrap_or(name));
    }

    /// Sets whether an offer of the side stands.
    pub fn set_offer(&mut self, colour: Colour, offers: bool)
        ensures { self.new ≡ offering colour offers self.old }
    {
        match colour {
            Colour::White => self.white.offers = offers,
            Colour::Black => self.black.offers = offers,
        }
    }

    /// Ends the turn of the mover with a completed move, which may end the game too. The opponent's offer is answered.
    pub fn finish_turn(&mut self, at: u64, mover: Colour, ending: Option<Ending>)
        requires running { self.old.clock.is_stopped ≡ false }
        requires from_start { self.old.clock.since ≤ at }
        requires in_time { ¬ HasFallen self.old.clock at }
        requires fits { TimesFit (clock_after self.old.clock (turn_ended self.old.clock at)) }
        ensures { self.new ≡ stopped_if (turn_over self.old mover at) at ending }
    {
        self.clock.finish_turn(at);
        self.set_offer(mover.other(), false);
        self.claimed = false;
        match ending {
            None => {}
            Some(ending) => self.stop(at, ending),
        }
    }

    /// Ends the game: each side keeps what it had left, and nothing is offered or claimed any more.
    pub fn stop(&mut self, at: u64, ending: Ending)
        requires running { self.old.clock.is_stopped ≡ false }
        requires from_start { self.old.clock.since ≤ at }
        ensures { self.new ≡ stopped self.old at ending }
    {
        self.clock.stop(at);
        self.white.offers = false;
        self.black.offers = false;
        self.claimed = false;
        self.ending = Some(ending);
    }

    /// A wrong claim of the side: its opponent gets 120,000 ms (FIDE article 9.5.3), and it counts as an offer (9.1).
    pub fn claim_wrongly(&mut self, by: Colour)
        requires running { self.old.clock.is_stopped ≡ false }
        requires fits { TimesFit (clock_after self.old.clock (WrongClaim by ∷ [])) }
        ensures { self.new ≡ with_wrong_claim by self.old }
    {
        self.clock.penalty(by.other());
        self.set_offer(by, true);
        self.claimed = true;
    }
}
