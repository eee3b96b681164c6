//! The seats of players in the games on the server's table, as far as its answers have told.
ghost use Rattle.std.specs.Prelude.{◌≡◌, ◌==◌, ◌&&◌, ◌||◌, ◌+◌, ◌-◌, ◌*◌, ◌/◌, true, false, not, nat_le, map, OnOk};
ghost use Rattle.std.specs.List.{count_by};
ghost use Rattle.std.specs.String.{string_bytes};
ghost use Rattle.lobby_words.specs.declared.listing.Seat.{Seat};
ghost use Rattle.lobby_table.specs.Owed.{owed_of};
ghost use Rattle.lobby_table.specs.Waiting as spec;
ghost use Rattle.lobby_words.specs.Answers.{tells_end};
ghost use Rattle.lobby_words.specs.Words.{is_pair};

use crate::server_line::{Acting, Due, ServerLine};
use lobby_words::{
    Seat, Stage, actor, as_name, black_name, ends_wait, is_list, is_pair, is_stage, joins_game,
    opens_game, seat_of, seats_in, tells_end,
};
use player_name::Name;
use std::alloc::{AllocError, Global};
use std::collections::VecDeque;

// Whether it is a seat of this player in a game that stands so.
fn is_seat(one: &Seat, stage: Stage, name: &str) -> bool
    ensures { result ≡ spec.is_seat stage name.now one.now }
{
    is_stage(one.stage, stage) && one.by.as_str() == name
}

// How many seats a player has in games that stand so.
fn seats_by(seats: &[Seat], stage: Stage, name: &str) -> usize
    ensures { result ≡ count_by (spec.is_seat stage name.now) seats.now }
{
    seats.iter().filter(|one| is_seat(one, stage, name)).count()
}

// Whether a message is one by which one more game stands so.
fn enters(text: &str, stage: Stage) -> bool
    ensures { result ≡ spec.enters stage text.now }
{
    match stage {
        Stage::Waits => opens_game(text),
        Stage::Plays => joins_game(text),
        Stage::Over => false,
    }
}

// Whether an act, but the join of a pairing, is one by which one more game of this player stands so.
fn enters_by(act: &Acting, stage: Stage, name: &str) -> bool
    ensures { result ≡ spec.enters_by stage name.now act.now.who (string_bytes act.now.text) }
{
    actor(act.who.as_str(), act.text.as_str()) == name && enters(act.text.as_str(), stage)
}

// Whether the message of a pairing has one more game of this player go on, once it is joined.
fn plays_by(text: &str, stage: Stage, name: &str) -> bool
    ensures { result ≡ spec.plays_by stage name.now text.now }
{
    is_stage(stage, Stage::Plays) && (as_name(text) == name || black_name(text) == name)
}

// Whether the message of a pairing has one more game of this player stand so, as that is opened and joined.
fn pairs_by(text: &str, stage: Stage, name: &str) -> bool
    ensures { result ≡ spec.pairs_by stage name.now text.now }
{
    is_stage(stage, Stage::Waits) && as_name(text) == name || plays_by(text, stage, name)
}

// Whether an act is one by which one more game of this player stands so, the join of a pairing too.
fn acts_by(act: &Acting, stage: Stage, name: &str) -> bool
    ensures { result ≡ (spec.enters_by stage name.now act.now.who (string_bytes act.now.text)
        || is_pair (string_bytes act.now.text) && spec.plays_by stage name.now (string_bytes act.now.text)) }
{
    let text = act.text.as_str();
    enters_by(act, stage, name) || is_pair(text) && plays_by(text, stage, name)
}

// Whether the answer is due to an act by which one more game of this player stands so.
fn is_entry(due: &Due, stage: Stage, name: &str) -> bool
    ensures { result ≡ spec.is_entry stage name.now (owed_of due.now) }
{
    match due {
        Due::Act(act) => acts_by(act, stage, name),
        Due::Pair(act, _) => pairs_by(act.text.as_str(), stage, name),
        _ => false,
    }
}

// How many answers are due to acts by which one more game of this player stands so.
fn entries(queue: &VecDeque<Due>, stage: Stage, name: &str) -> usize
    ensures { result ≡ count_by (spec.is_entry stage name.now) (map owed_of queue.now.items) }
{
    queue
        .iter()
        .filter(|due| is_entry(due, stage, name))
        .count()
}

// How many seats are in games that wait.
fn waiting_seats(seats: &[Seat]) -> usize
    ensures { result ≡ count_by spec.is_waiting seats.now }
{
    seats
        .iter()
        .filter(|one| is_stage(one.stage, Stage::Waits))
        .count()
}

// Whether the answer to an act is due that opens a game.
fn is_opening(due: &Due) -> bool
    ensures { result ≡ spec.is_opening (owed_of due.now) }
{
    match due {
        Due::Act(act) => opens_game(act.text.as_str()),
        Due::Pair(_, _) => true,
        _ => false,
    }
}

// How many answers are due to acts that open a game.
fn openings(queue: &VecDeque<Due>) -> usize
    ensures { result ≡ count_by spec.is_opening (map owed_of queue.now.items) }
{
    queue.iter().filter(|due| is_opening(due)).count()
}

// So many halves of places are taken where the rest is for arbiters and pairings.
fn own_halves(places: u32) -> usize
    ensures { result ≡ 2 * (places - places / 8) }
{
    2 * (places - places / 8) as usize
}

// Whether so many halves are taken by seats, by those in games that wait once more, and by openings, of which each
// takes two.
fn are_taken(most: usize, seats: usize, waiting: usize, openings: usize) -> bool
    ensures { result ≡ nat_le most (seats + (waiting + 2 * openings)) }
{
    let left = most.saturating_sub(seats).saturating_sub(waiting);
    left.saturating_sub(openings) <= openings
}

impl ServerLine {
    /// Whether a player has so many seats in games that stand so. Those count of which the answer is not there yet.
    pub fn has_many(&self, most: usize, stage: Stage, name: &str) -> bool
        ensures { result ≡ spec.has_many most stage self.now.seats.items (map owed_of self.now.queue.items) name.now }
    {
        let seats = seats_by(self.seats.as_slice(), stage, name);
        most.saturating_sub(seats) <= entries(&self.queue, stage, name)
    }

    /// Whether of a table of so many places but those for arbiters and pairings are taken.
    pub fn is_full_at(&self, places: u32) -> bool
        ensures { result ≡ nat_le (2 * (places - places / 8))
            (spec.halves_taken self.now.seats.items (map owed_of self.now.queue.items)) }
    {
        let seats = self.seats.as_slice();
        are_taken(
            own_halves(places),
            seats.len(),
            waiting_seats(seats),
            openings(&self.queue),
        )
    }
}

// No seat in a game is known any more.
fn take_off(seats: &mut Vec<Seat>, game: u32)
    ensures { seats.new.items ≡ spec.gone game seats.old.items }
{
    seats.retain(|one| one.game != game);
}

// One seat more, if there is one.
fn add_seat(seats: &mut Vec<Seat>, one: Option<Seat>) -> Result<(), AllocError>
    ensures { OnOk result (seats.new.items ≡ spec.behind seats.old.items one) }
{
    if let Some(one) = one {
        seats.push(one)?;
    }
    Ok(())
}

// Who has the first seat in a game.
fn first_by(seats: &[Seat], game: u32) -> Option<Name>
    ensures { result ≡ spec.first_by game seats.now }
{
    seats.iter().find(|one| one.game == game).map(|one| one.by)
}

// The seat of who had the first one in a game, once that goes on.
fn still_by(game: u32, by: Option<Name>) -> Option<Seat>
    ensures { result ≡ spec.still_by game by }
{
    by.map(|by| Seat {
        game,
        by,
        stage: Stage::Plays,
    })
}

// Notes that a game was joined.
fn note_joined(seats: &mut Vec<Seat>, game: u32, by: &str) -> Result<(), AllocError>
    ensures { OnOk result (seats.new.items ≡ spec.seats_joined game by.now seats.old.items) }
{
    let still = still_by(game, first_by(seats.as_slice(), game));
    take_off(seats, game);
    add_seat(seats, still)?;
    add_seat(seats, seat_of(Some(game), by, Stage::Plays))
}

// A seat in a game that is over from now on, if it is one.
fn over_if(one: &Seat, game: u32) -> Seat
    ensures { result ≡ spec.over_if game one.now }
{
    if one.game == game {
        Seat {
            game: one.game,
            by: one.by,
            stage: Stage::Over,
        }
    } else {
        *one
    }
}

// A game is over from now on.
fn end_all(seats: &mut [Seat], game: u32)
    ensures { seats.new ≡ map (spec.over_if game) seats.old }
{
    for one in seats.iter_mut() {
        *one = over_if(one, game);
    }
}

// Notes an act that was done in a game, which is over then, or not.
fn note_game(
    seats: &mut Vec<Seat>,
    act: &Acting,
    is_over: bool,
    game: u32,
) -> Result<(), AllocError>
    ensures { OnOk result (seats.new.items ≡ spec.seats_acted act.now.who
        (string_bytes act.now.text) is_over game seats.old.items) }
{
    let text = act.text.as_str();
    let by = actor(act.who.as_str(), text);
    if opens_game(text) {
        add_seat(seats, seat_of(Some(game), by, Stage::Waits))
    } else if joins_game(text) {
        note_joined(seats, game, by)
    } else if is_pair(text) {
        note_joined(seats, game, black_name(text))
    } else if ends_wait(text) {
        take_off(seats, game);
        Ok(())
    } else {
        if is_over {
            end_all(seats.as_mut_slice(), game);
        }
        Ok(())
    }
}

/// Notes the opening of a pairing, where a game was opened.
pub fn note_opened(seats: &mut Vec<Seat>, text: &str, game: Option<u32>) -> Result<(), AllocError>
    ensures { OnOk result (seats.new.items ≡ spec.seats_opened text.now game seats.old.items) }
{
    add_seat(seats, seat_of(game, as_name(text), Stage::Waits))
}

/// Notes an act, where it was done in a game, as its answer tells.
pub fn note_act(
    seats: &mut Vec<Seat>,
    act: &Acting,
    answer: &str,
    game: Option<u32>,
) -> Result<(), AllocError>
    ensures { OnOk result (seats.new.items ≡ spec.seats_told act.now.who (string_bytes act.now.text)
        (tells_end answer.now) game seats.old.items) }
{
    match game {
        None => Ok(()),
        Some(game) => note_game(seats, act, tells_end(answer), game),
    }
}

/// Takes the seats from an answer, where it is one to `list`.
pub fn note_list(seats: &mut Vec<Seat>, alloc: Global, answer: &str) -> Result<(), AllocError>
    ensures { OnOk result (seats.new.items ≡ spec.seats_listed answer.now seats.old.items) }
{
    if is_list(answer) {
        *seats = seats_in(alloc, answer)?;
    }
    Ok(())
}
