ghost use Rattle.std.specs.Prelude.{◌≡◌, ◌≤◌, ◌<◌, ◌++◌, [], ◌∷◌, length, true, false, is_some, IfOk, OnOk, OnErr};
ghost use Rattle.std.specs.Prelude.{IfSome, IfNone};
ghost use Rattle.chess_bits.specs.Man.{other};
ghost use Rattle.chess_clock.specs.TimeControl.{time_control, IsTimeControl};
ghost use Rattle.chess_entry.specs.State.{position_of, ply_of, seat_of, is_joined, is_over};
ghost use Rattle.chess_entry.specs.Story.{stated};
ghost use Rattle.chess_entry.specs.Outcome.{ending_after, is_granted, agreed, resigned, flag_fallen};
ghost use Rattle.chess_board.specs.declared.moves.Move.{Move};
ghost use Rattle.chess_entry.specs.Games.{control_of};
ghost use Rattle.chess_entry.specs.Follow.{fresh_seat, new_game, joined, moved, with_offer, ended, claim_judged};
ghost use Rattle.chess_entry.specs.Verdict.{side_of, has_fallen, is_on_move, is_named};
ghost use Rattle.chess_entry.specs.Bounds.{IsGame, IsStart, IsByAct};
ghost use Rattle.chess_entry.specs.Snapshot.{IsHeadOf};
ghost use Rattle.chess_game.specs.ClockFor.{seat_for};
ghost use Rattle.chess_game.specs.Restored.{IsRestored, NamesNoGame};
ghost use Rattle.chess_game.specs.Turn.{IsRunningAt, IsInTime, IsPlayable, IsJudgeable, left_in};

use crate::endings::{agreed, drawn_by_claim, resigned};
use crate::restored::{is_counted, may_be_opened, may_stand, sides_named};
use crate::scoresheet::Scoresheet;
use crate::sides::{Seat, Sides};
use crate::stored::{stored_ending, stored_seat};
use chess_bits::Colour;
use chess_board::{Board, Move};
use chess_clock::Clock;
use chess_end::{Ending, flag_result};
use rec_codec::{Claim, GameNumber, Head, Name, Opening};
use std::alloc::{AllocError, Global};
use std::marker::Model;

/// The times that a game is played with, in seconds; a second period is the moves before it and its seconds.
#[derive(Clone, Copy)]
pub struct Times {
    pub initial: u32,
    pub increment: u32,
    pub period: Option<(u32, u32)>,
}

/// A game of at most 20,000 moves: who plays, the moves, the times, what is offered and claimed, and the ending.
#[derive(Drop)]
pub struct Game {
    number: GameNumber,
    times: Times,
    line: Scoresheet,
    sides: Sides,
}

impl Model for Game {
    ghost use Rattle.chess_entry.specs.State.{GameState};
    ghost use Rattle.chess_game.specs.GameInside.{state_of, IsSound};

    ghost Value = { GameState };

    ghost view = { state_of };

    ghost invariant = { IsSound };
}

// The move that a claim states, if it states one.
fn stated_move(claim: &Claim) -> Option<Move>
    ensures { result ≡ claim.now.mv }
{
    match claim.mv {
        None => None,
        Some(mv) => Some(mv.get()),
    }
}

// The seat of a side in a new game: who opens it has the colour that the opening names.
fn fresh_seat(opening: &Opening, side: Colour) -> Seat
    ensures { result ≡ seat_for (fresh_seat opening.now side) }
{
    let name = match (side, opening.colour) {
        (Colour::White, Colour::White) | (Colour::Black, Colour::Black) => Some(opening.name),
        _ => None,
    };
    Seat {
        name,
        offers: false,
    }
}

// Whether a seat is that of the player.
fn is_of(seat: Seat, name: &Name) -> bool
    ensures { result ≡ is_named name.now seat.name }
{
    match seat.name {
        None => false,
        Some(player) => player == *name,
    }
}

impl Game {
    /// A game that is opened: one seat is taken, and no clock runs. It fails where memory is refused.
    pub fn open(alloc: Global, number: GameNumber, opening: &Opening) -> Result<Game, AllocError>
        requires times { IsTimeControl (control_of opening.now) }
        requires start { IsStart opening.now.start }
        ensures { IfOk result (λ game. game ≡ new_game number opening.now) }
    {
        let _numbered = number.get();
        let _named = opening.name.as_str();
        let clock = Clock::new(
            opening.initial,
            opening.increment,
            opening.start.side(),
            0,
            opening.period,
        );
        Ok(Game {
            number,
            times: Times {
                initial: opening.initial,
                increment: opening.increment,
                period: opening.period,
            },
            line: Scoresheet::new(alloc, &opening.start)?,
            sides: Sides {
                clock,
                white: fresh_seat(opening, Colour::White),
                black: fresh_seat(opening, Colour::Black),
                claimed: false,
                ending: None,
            },
        })
    }

    /// The game that a snapshot names by its head and its moves, which are played again; `None` where no game of at
    /// most 20,000 moves has that head and these moves. It fails where memory is refused.
    pub fn restore(alloc: Global, head: &Head, moves: &[Move]) -> Result<Option<Game>, AllocError>
        ensures some { IfOk result (λ told. IfSome told (IsRestored head.now moves.now)) }
        ensures none { IfOk result (λ told. IfNone told (NamesNoGame head.now moves.now)) }
    {
        let _numbered = head.game.get();
        if !is_counted(head, moves) || !may_be_opened(head, moves) {
            return Ok(None);
        }
        let Some(replayed) = Scoresheet::replay(alloc, &head.start, moves)? else {
            return Ok(None);
        };
        let mover = replayed.line.board().side();
        if !may_stand(head, moves, mover, replayed.by_line) {
            return Ok(None);
        }
        Ok(Some(Game {
            number: head.game,
            times: Times {
                initial: head.initial,
                increment: head.increment,
                period: head.period,
            },
            line: replayed.line,
            sides: sides_named(head, moves, mover),
        }))
    }

    /// The game's number.
    pub fn number(&self) -> GameNumber
        ensures number { result ≡ self.now.number }
        ensures game { IsGame 20000 self.now }
    {
        self.number
    }

    /// The times that the game is played with.
    pub fn times(&self) -> Times
        ensures { time_control result.initial result.increment result.period ≡ self.now.control }
    {
        self.times
    }

    /// The position that the game started from.
    pub fn start(&self) -> &Board
        ensures { result.now ≡ self.now.start }
    {
        self.line.start()
    }

    /// The position that stands.
    pub fn board(&self) -> &Board
        ensures { result.now ≡ position_of self.now }
    {
        self.line.board()
    }

    /// The moves made.
    pub fn moves(&self) -> &[Move]
        ensures { result.now ≡ self.now.moves }
    {
        self.line.moves()
    }

    /// How many moves were made, at most 20,000.
    pub fn ply(&self) -> u32
        ensures ply { result ≡ ply_of self.now }
        ensures few { result ≤ 20000 }
    {
        self.line.moves().len() as u32
    }

    /// Who plays a side, where its seat is taken.
    pub fn player(&self, colour: Colour) -> Option<Name>
        ensures { result ≡ (seat_of colour self.now).name }
    {
        self.sides.seat(colour).name
    }

    /// Whether an offer of a draw by the side stands.
    pub fn offers(&self, colour: Colour) -> bool
        ensures { result ≡ (seat_of colour self.now).offers }
    {
        self.sides.seat(colour).offers
    }

    /// Whether the side to move has claimed in this turn.
    pub fn claimed(&self) -> bool
        ensures { result ≡ self.now.claimed }
    {
        self.sides.claimed
    }

    /// How the game ended, if it is over.
    pub fn ending(&self) -> Option<Ending>
        ensures { result ≡ self.now.ending }
    {
        self.sides.ending
    }

    /// Whether both seats are taken.
    pub fn is_joined(&self) -> bool
        ensures { result ≡ is_joined self.now }
    {
        self.sides.white.name.is_some() && self.sides.black.name.is_some()
    }

    /// Whether the game is over.
    pub fn is_over(&self) -> bool
        ensures { result ≡ is_over self.now }
    {
        self.sides.ending.is_some()
    }

    /// The moment at which the running turn began, or the game ended; 0 before both seats are taken.
    pub fn moment(&self) -> u64
        ensures { result ≡ self.now.moment }
    {
        self.sides.clock.since()
    }

    /// The milliseconds that a side held at the start of the running turn, or had left at the end.
    pub fn held(&self, colour: Colour) -> u32
        ensures { result ≡ (seat_of colour self.now).held }
    {
        self.sides.clock.held(colour)
    }

    /// The milliseconds that a side has left: of a game that runs, the running turn is taken off for the side on move.
    pub fn left(&self, colour: Colour, at: u64) -> u32
        requires { self.now.moment ≤ at }
        ensures { result ≡ left_in self.now colour at }
    {
        if self.is_joined() {
            self.sides.clock.left(colour, at)
        } else {
            self.held(colour)
        }
    }

    /// The side that a player has, if it plays in this game.
    pub fn side_of(&self, name: &Name) -> Option<Colour>
        ensures { result ≡ side_of name.now self.now }
    {
        if is_of(self.sides.white, name) {
            Some(Colour::White)
        } else if is_of(self.sides.black, name) {
            Some(Colour::Black)
        } else {
            None
        }
    }

    /// Whether the flag of the side to move has fallen.
    pub fn has_fallen(&self, at: u64) -> bool
        requires { IsRunningAt self.now at }
        ensures { result ≡ has_fallen self.now at }
    {
        self.sides.clock.fallen(at)
    }

    /// Whether a claim is correct: for the position that stands, or the one that a stated move would bring. The move is
    /// not made.
    pub fn is_granted(&self, fifty: bool, mv: Option<Move>) -> bool
        requires { (m : Move) → mv ≡ Some m → IsPlayable self.now m }
        ensures { result ≡ is_granted fifty self.now.start (self.now.moves ++ stated mv) }
    {
        match mv {
            None => self.line.is_granted(fifty),
            Some(mv) => self.line.is_granted_with(fifty, mv),
        }
    }

    /// The ending that a legal move would bring, if it would bring one. The move is not made.
    pub fn ending_with(&self, mv: &Move) -> Option<Ending>
        requires { IsPlayable self.now mv.now }
        ensures { result ≡ ending_after self.now.start (self.now.moves ++ mv.now ∷ []) }
    {
        self.line.ending_with(mv)
    }

    /// What a snapshot keeps of the game beside its moves.
    pub fn head(&self) -> Head
        ensures { IsHeadOf self.now result }
    {
        let ending = match self.sides.ending {
            None => None,
            Some(ending) => Some(stored_ending(ending)),
        };
        Head {
            game: self.number,
            moment: self.moment(),
            moves: self.ply(),
            initial: self.times.initial,
            increment: self.times.increment,
            period: self.times.period,
            start: *self.line.start(),
            white: stored_seat(self.sides.white, self.held(Colour::White)),
            black: stored_seat(self.sides.black, self.held(Colour::Black)),
            claimed: self.sides.claimed,
            ending,
        }
    }

    /// The empty seat is taken, and the first turn begins.
    pub fn join(&mut self, at: u64, name: Name)
        requires waiting { is_joined self.old ≡ false }
        requires another { side_of name self.old ≡ None }
        ensures { self.new ≡ joined self.old at name }
    {
        let _named = name.as_str();
        let side = self.line.board().side();
        let Times {
            initial,
            increment,
            period,
        } = self.times;
        self.sides.clock = Clock::new(initial, increment, side, at, period);
        self.sides.seat_player(name);
    }

    /// A move is made: the turn ends, an offer of the opponent is answered, and the game may end. It fails where memory
    /// is refused, and then all is as it was.
    pub fn play(&mut self, at: u64, mv: Move) -> Result<(), AllocError>
        requires in_time { IsInTime self.old at }
        requires playable { IsPlayable self.old mv }
        ensures made { OnOk result (self.new ≡ moved self.old at mv) }
        ensures refused { OnErr result (self.new ≡ self.old) }
    {
        let mover = self.line.board().side();
        let ending = self.line.push(&mv)?;
        self.sides.finish_turn(at, mover, ending);
        Ok(())
    }

    /// A draw is offered (FIDE article 9.1).
    pub fn offer(&mut self, colour: Colour)
        requires joined { is_joined self.old ≡ true }
        requires goes_on { is_over self.old ≡ false }
        ensures { self.new ≡ with_offer self.old colour true }
    {
        self.sides.set_offer(colour, true);
    }

    /// The opponent's offer is declined.
    pub fn decline(&mut self, colour: Colour)
        ensures { self.new ≡ with_offer self.old (other colour) false }
    {
        self.sides.set_offer(colour.other(), false);
    }

    /// The opponent's offer is accepted: the game is drawn (FIDE article 5.2.3).
    pub fn accept(&mut self, at: u64)
        requires { IsRunningAt self.old at }
        ensures { self.new ≡ ended self.old at agreed }
    {
        self.end(at, agreed());
    }

    /// The side resigns, which always loses (FIDE article 5.1.2).
    pub fn resign(&mut self, at: u64, colour: Colour)
        requires { IsRunningAt self.old at }
        ensures { self.new ≡ ended self.old at (resigned colour) }
    {
        self.end(at, resigned(colour));
    }

    /// The flag of the side to move has fallen (FIDE article 6.9).
    pub fn fall(&mut self, at: u64)
        requires { IsRunningAt self.old at }
        ensures { self.new ≡ ended self.old at (flag_fallen (position_of self.old)) }
    {
        let board = self.line.board();
        let ending = flag_result(board, board.side());
        self.end(at, ending);
    }

    /// A claim is judged: a correct one ends the game without its stated move. A wrong one gives 120,000 ms to the
    /// opponent, counts as an offer, and its stated move is made. It fails where memory for that move is refused, and
    /// then all is as it was.
    pub fn claim(&mut self, at: u64, claim: &Claim) -> Result<(), AllocError>
        requires in_time { IsInTime self.old at }
        requires judgeable { IsJudgeable self.old claim.now }
        ensures judged { OnOk result (self.new ≡ claim_judged self.old at claim.now) }
        ensures refused { OnErr result (self.new ≡ self.old) }
        ensures wrong { OnErr result (is_granted claim.now.fifty self.old.start (self.old.moves ++ stated claim.now.mv)
            ≡ false) }
        ensures stating { OnErr result (is_some claim.now.mv ≡ true) }
    {
        let mv = stated_move(claim);
        if self.is_granted(claim.fifty, mv) {
            self.end(at, drawn_by_claim(claim.fifty));
            return Ok(());
        }
        match &mv {
            None => {
                self.sides.claim_wrongly(claim.by);
                Ok(())
            }
            Some(mv) => {
                let ending = self.line.push(mv)?;
                self.sides.claim_wrongly(claim.by);
                self.sides.finish_turn(at, claim.by, ending);
                Ok(())
            }
        }
    }

    // The game ends by an act of a player or by a fallen flag.
    fn end(&mut self, at: u64, ending: Ending)
        requires running { IsRunningAt self.old at }
        requires by_act { IsByAct ending.article ending.result }
        ensures { self.new ≡ ended self.old at ending }
    {
        self.sides.stop(at, ending);
    }
}
