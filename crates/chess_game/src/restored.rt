ghost use Rattle.std.specs.Prelude.{◌≡◌, ◌≤◌, ◌*◌, ◌↔◌, IsTrue, true, false, IfSome, List, [], length};
ghost use Rattle.chess_bits.specs.declared.men.Colour.TheVariants.{White, Black};
ghost use Rattle.chess_board.specs.declared.moves.Move.{Move};
ghost use Rattle.chess_clock.specs.TimeControl.{time_control, IsTimeControl};
ghost use Rattle.chess_clock.specs.Held.{given_for};
ghost use Rattle.player_name.specs.Name.{IsName};
ghost use Rattle.chess_entry.specs.State.{position_of, seat_of, is_joined, is_over};
ghost use Rattle.chess_entry.specs.Follow.{completed};
ghost use Rattle.chess_entry.specs.Bounds.{IsStart, IsByAct, Agrees, ending_by_last, claims_most, IsHeldWithin};
ghost use Rattle.chess_entry.specs.Bounds.{IsQuiet, IsWaiting, AreDifferent};
ghost use Rattle.chess_entry.specs.Snapshot.{ending_told, IsHeadOf};
ghost use Rattle.chess_game.specs.ClockFor.{clock_for, sides_for};
ghost use Rattle.chess_game.specs.Restored.{game_named, MayBeOpened, EndsRightly, MayStand};

use crate::scoresheet::is_finished;
use crate::sides::{Seat, Sides};
use crate::stored::told_ending;
use chess_bits::Colour;
use chess_board::{Board, Move};
use chess_clock::{Clock, is_time_control};
use chess_end::{Article, Ending, GameResult};
use rec_codec::{Head, Name, Seat as StoredSeat};

// Who plays a side.
fn player_of(seat: &StoredSeat) -> Option<Name>
    ensures name { result ≡ seat.now.name }
    ensures named { IfSome result IsName }
{
    match seat.name {
        None => None,
        Some(name) => {
            let _named = name.as_str();
            Some(name)
        }
    }
}

/// Whether a head counts these moves, and says of a seat that it is taken just where it names who plays there.
pub fn is_counted(head: &Head, moves: &[Move]) -> bool
    ensures { IsTrue result ↔ IsHeadOf (game_named head.now moves.now) head.now }
{
    head.moves as usize == moves.len()
        && head.white.taken == head.white.name.is_some()
        && head.black.taken == head.black.name.is_some()
}

// Whether somebody plays, and not on both sides.
fn are_players(head: &Head) -> bool
    ensures different { IsTrue result ↔ AreDifferent head.now.white.name head.now.black.name }
    ensures white { IfSome head.now.white.name IsName }
    ensures black { IfSome head.now.black.name IsName }
{
    match (player_of(&head.white), player_of(&head.black)) {
        (Some(white), Some(black)) => white != black,
        (white, black) => white.is_some() || black.is_some(),
    }
}

// Whether a game may start there.
fn is_start(board: &Board) -> bool
    ensures { IsTrue result ↔ IsStart board.now }
{
    let _valid = board.rights();
    board.fullmove() <= 9_999 && !is_finished(board)
}

/// Whether the times, the start, the players and the number of moves are those of a game.
pub fn may_be_opened(head: &Head, moves: &[Move]) -> bool
    ensures { IsTrue result ↔ MayBeOpened (game_named head.now moves.now) }
{
    is_time_control(head.initial, head.increment, head.period)
        && is_start(&head.start)
        && are_players(head)
        && moves.len() <= 20_000
}

// Whether nothing is offered or claimed.
fn is_quiet(head: &Head) -> bool
    ensures { (moves : List Move) → (IsTrue result ↔ IsQuiet (game_named head.now moves)) }
{
    !head.white.offers && !head.black.offers && !head.claimed
}

// Whether no move was made, no turn has begun and no ending is there.
fn is_unmoved(head: &Head, moves: &[Move]) -> bool
    ensures { IsTrue result ↔
        ((moves.now ≡ []) × (ending_told head.now.ending ≡ None) × (head.now.moment ≡ 0)) }
{
    moves.is_empty() && told_ending(head.ending).is_none() && head.moment == 0
}

// Whether both sides hold the initial time.
fn hold_initial(head: &Head) -> bool
    requires { head.now.initial ≤ 86400 }
    ensures { IsTrue result ↔
        ((head.now.white.held ≡ 1000 * head.now.initial) × (head.now.black.held ≡ 1000 * head.now.initial)) }
{
    let initial = 1000 * head.initial;
    head.white.held == initial && head.black.held == initial
}

// Whether nothing has happened in the game yet.
fn is_waiting(head: &Head, moves: &[Move]) -> bool
    requires { head.now.initial ≤ 86400 }
    ensures { IsTrue result ↔ IsWaiting (game_named head.now moves.now) }
{
    is_unmoved(head, moves) && is_quiet(head) && hold_initial(head)
}

// Whether both seats are taken, or else nothing has happened.
fn is_joined_or_waiting(head: &Head, moves: &[Move]) -> bool
    requires { head.now.initial ≤ 86400 }
    ensures { IsTrue result ↔
        (is_joined (game_named head.now moves.now) ≡ false → IsWaiting (game_named head.now moves.now)) }
{
    head.white.name.is_some() && head.black.name.is_some() || is_waiting(head, moves)
}

// Whether nothing is offered or claimed in a game that is over.
fn is_quiet_at_end(head: &Head) -> bool
    ensures { (moves : List Move) → (IsTrue result ↔
        (is_over (game_named head.now moves) ≡ true → IsQuiet (game_named head.now moves))) }
{
    match told_ending(head.ending) {
        None => true,
        Some(_) => is_quiet(head),
    }
}

// Whether an act of a player or a fallen flag may give the ending.
fn is_by_act(ending: Ending) -> bool
    ensures { IsTrue result ↔ IsByAct ending.article ending.result }
{
    match ending.article {
        Article::A512 => ending.result != GameResult::Draw,
        Article::A523 | Article::A92 | Article::A93 => ending.result == GameResult::Draw,
        Article::A69 => true,
        Article::A511 | Article::A521 | Article::A522 | Article::A961 | Article::A962 => false,
    }
}

// Whether the ending is that of the line, or, of a line that goes on, one by an act or a flag.
fn agrees(by_line: Option<Ending>, ending: Option<Ending>) -> bool
    ensures { IsTrue result ↔ Agrees by_line ending }
{
    match (by_line, ending) {
        (Some(by_line), Some(ending)) => ending == by_line,
        (Some(_), None) => false,
        (None, Some(ending)) => is_by_act(ending),
        (None, None) => true,
    }
}

// The moves that a side has completed after so many of both.
fn completed_by(first: Colour, side: Colour, plies: u32) -> u32
    requires { plies ≤ 20000 }
    ensures is { result ≡ completed first side plies }
    ensures few { result ≤ 10000 }
{
    if side == first {
        (plies + 1) / 2
    } else {
        plies / 2
    }
}

// The wrong claims that a side can have made.
fn claims_of(head: &Head, moves: &[Move], mover: Colour, side: Colour) -> u32
    requires short { length moves.now ≤ 20000 }
    requires mover { mover ≡ (position_of (game_named head.now moves.now)).side }
    ensures most { result ≡ claims_most (game_named head.now moves.now) side }
    ensures few { result ≤ 10001 }
{
    let finished = completed_by(head.start.side(), side, moves.len() as u32);
    if side == mover && (head.claimed || told_ending(head.ending).is_some()) {
        finished + 1
    } else {
        finished
    }
}

// The milliseconds that a side is given for so many moves, and so many wrong claims of its opponent.
fn time_given(head: &Head, moves: u32, claims: u32) -> u64
    requires control { IsTimeControl (time_control head.now.initial head.now.increment head.now.period) }
    requires moves { moves ≤ 10000 }
    requires claims { claims ≤ 10001 }
    ensures { result ≡ given_for (time_control head.now.initial head.now.increment head.now.period) moves claims }
{
    let second = match head.period {
        Some((before, seconds)) if before <= moves => 1000 * seconds,
        _ => 0,
    };
    u64::from(1000 * head.initial)
        + u64::from(1000 * head.increment * moves)
        + u64::from(120_000 * claims)
        + u64::from(second)
}

// Whether a side holds no more than it can have been given.
fn is_held_within(head: &Head, moves: &[Move], mover: Colour, side: Colour, held: u32) -> bool
    requires opened { MayBeOpened (game_named head.now moves.now) }
    requires mover { mover ≡ (position_of (game_named head.now moves.now)).side }
    requires held { held ≡ (seat_of side (game_named head.now moves.now)).held }
    ensures { IsTrue result ↔ IsHeldWithin (game_named head.now moves.now) side }
{
    let finished = completed_by(head.start.side(), side, moves.len() as u32);
    let claims = claims_of(head, moves, mover, side.other());
    u64::from(held) <= time_given(head, finished, claims)
}

// Whether the ending may follow where the line has ended by itself, or not, and nothing is asked any more at the end.
fn is_ended_rightly(head: &Head, moves: &[Move], by_line: Option<Ending>) -> bool
    requires { by_line ≡ ending_by_last head.now.start moves.now }
    ensures { IsTrue result ↔ EndsRightly (game_named head.now moves.now) }
{
    agrees(by_line, told_ending(head.ending)) && is_quiet_at_end(head)
}

// Whether both sides hold no more than they can have been given.
fn are_held_within(head: &Head, moves: &[Move], mover: Colour) -> bool
    requires opened { MayBeOpened (game_named head.now moves.now) }
    requires mover { mover ≡ (position_of (game_named head.now moves.now)).side }
    ensures { IsTrue result ↔ (IsHeldWithin (game_named head.now moves.now) White
        × IsHeldWithin (game_named head.now moves.now) Black) }
{
    is_held_within(head, moves, mover, Colour::White, head.white.held)
        && is_held_within(head, moves, mover, Colour::Black, head.black.held)
}

/// Whether what was done in a game may stand so: of a game with these moves, whose side to move is `mover`, and whose
/// line has ended by itself, or not.
pub fn may_stand(head: &Head, moves: &[Move], mover: Colour, by_line: Option<Ending>) -> bool
    requires opened { MayBeOpened (game_named head.now moves.now) }
    requires mover { mover ≡ (position_of (game_named head.now moves.now)).side }
    requires by_line { by_line ≡ ending_by_last head.now.start moves.now }
    ensures { IsTrue result ↔ MayStand (game_named head.now moves.now) }
{
    is_joined_or_waiting(head, moves)
        && is_ended_rightly(head, moves, by_line)
        && are_held_within(head, moves, mover)
}

// The clock of the game. The running turn, or the end, is at the head's moment.
fn clock_named(head: &Head, moves: &[Move], mover: Colour) -> Clock
    requires opened { MayBeOpened (game_named head.now moves.now) }
    requires mover { mover ≡ (position_of (game_named head.now moves.now)).side }
    ensures { result ≡ clock_for (game_named head.now moves.now) }
{
    let first = head.start.side();
    let plies = moves.len() as u32;
    let mut clock = Clock::new(
        head.initial,
        head.increment,
        mover,
        head.moment,
        head.period,
    );
    let white = completed_by(first, Colour::White, plies);
    clock.set_held(Colour::White, head.white.held, white);
    let black = completed_by(first, Colour::Black, plies);
    clock.set_held(Colour::Black, head.black.held, black);
    if told_ending(head.ending).is_some() {
        clock.stop(head.moment);
    }
    clock
}

/// The sides of a game with these moves, whose side to move is `mover`.
pub fn sides_named(head: &Head, moves: &[Move], mover: Colour) -> Sides
    requires opened { MayBeOpened (game_named head.now moves.now) }
    requires mover { mover ≡ (position_of (game_named head.now moves.now)).side }
    ensures { result ≡ sides_for (game_named head.now moves.now) }
{
    Sides {
        clock: clock_named(head, moves, mover),
        white: Seat {
            name: head.white.name,
            offers: head.white.offers,
        },
        black: Seat {
            name: head.black.name,
            offers: head.black.offers,
        },
        claimed: head.claimed,
        ending: told_ending(head.ending),
    }
}
