//! A tournament's report.
ghost use Rattle.std.specs.Prelude.{◌≡◌, ◌++◌, ◌∷◌, [], ◌≤◌, ◌<◌, ◌*◌, ◌^◌, length, map, decimal, codes, replicate};
ghost use Rattle.std.specs.Prelude.{IfOk, IfErr, OnOk, if◌then◌else◌};
ghost use Rattle.night_report.specs.Report as spec;
ghost use Rattle.night_report.specs.Room as room;
ghost use Rattle.night_report.specs.Room.{HasRoom, IsFault};
ghost use Rattle.night_report.specs.declared.columns.Fault.TheVariants as faults;

use crate::cells::{Cell, Meeting, cell_of};
use crate::particulars::Particulars;
use crate::room::fault_in;
use crate::teams::Team;
use itoa::Buffer;
use std::alloc::{AllocError, Global};
use thiserror::Error;

/// What is told of a tournament; what is not known is an empty text.
#[derive(Clone, Copy)]
pub struct Tournament<'a> {
    pub name: &'a str,
    pub city: &'a str,
    pub federation: &'a str,
    /// `YYYY/MM/DD`.
    pub begins: &'a str,
    pub ends: &'a str,
    /// As `Individual: Swiss-System`.
    pub kind: &'a str,
    pub arbiter: &'a str,
    pub deputy: &'a str,
    pub times: &'a str,
    /// How many rounds there are to be.
    pub rounds: Option<u32>,
}

/// Why no report is made.
#[derive(Clone, Copy, Debug, Error)]
pub enum Fault {
    #[error("more than 9,999 players have no room in the columns of a report")]
    TooManyPlayers,
    #[error("more than 99 rounds have no room in the columns of a report")]
    TooManyRounds,
    /// More rounds were told, or more days of rounds, than there are to be.
    #[error("there are fewer rounds to be than rounds or days of rounds are given")]
    TooFewRounds,
    /// A title has three columns, a rating four, a FIDE number eleven.
    #[error("a title, a rating or a FIDE number is none of ASCII, or has no room in its columns")]
    TooWide,
    #[error("a round or a team has a number that is no player's")]
    NoPlayer,
    #[error("memory was refused")]
    NoMemory,
}

impl From<AllocError> for Fault {
    ghost from_gives = { λ _ fault. fault ≡ faults.NoMemory };

    fn from(_error: AllocError) -> Fault {
        Fault::NoMemory
    }
}

fn push_spaces(out: &mut Vec<u8>, count: usize) -> Result<(), AllocError>
    ensures { OnOk result (out.new.items ≡ out.old.items ++ replicate count 32) }
{
    for at in 0..count {
        let _place = at;
        out.push(b' ')?;
    }
    Ok(())
}

// A text at the right of so many columns.
#[tactic(auto, unfolding(crate::specs::Report::at_right))]
fn push_right(out: &mut Vec<u8>, width: usize, text: &[u8]) -> Result<(), AllocError>
    ensures { OnOk result (out.new.items ≡ out.old.items ++ spec.at_right width text.now) }
{
    push_spaces(out, width.saturating_sub(text.len()))?;
    out.extend_from_slice(text)?;
    Ok(())
}

fn plain_byte(byte: u8) -> u8
    ensures { result ≡ spec.plain_byte byte }
{
    if byte < 32 { b' ' } else { byte }
}

fn push_plain(out: &mut Vec<u8>, text: &[u8]) -> Result<(), AllocError>
    ensures { OnOk result (out.new.items ≡ out.old.items ++ map spec.plain_byte text.now) }
{
    for byte in text {
        out.push(plain_byte(*byte))?;
    }
    Ok(())
}

fn begins(byte: u8) -> bool
    ensures { result ≡ spec.begins byte }
{
    byte / 64 != 2
}

// The first `width` characters of a text, each byte as it is written plainly, and spaces in the room that is left.
fn push_left(out: &mut Vec<u8>, width: usize, text: &[u8]) -> Result<(), AllocError>
    ensures { OnOk result (out.new.items ≡ out.old.items ++ spec.at_left width (map spec.plain_byte text.now)) }
{
    let mut room = width;
    for byte in text {
        let plain = plain_byte(*byte);
        if begins(plain) {
            if room == 0 {
                return Ok(());
            }
            room -= 1;
        }
        out.push(plain)?;
    }
    push_spaces(out, room)
}

// A line with what stands in columns 1 to 3 and from 5 on.
fn push_line(out: &mut Vec<u8>, id: &str, text: &str) -> Result<(), AllocError>
    ensures { OnOk result (out.new.items ≡ out.old.items ++ spec.line_of id.now text.now) }
{
    out.extend_from_slice(id.as_bytes())?;
    out.push(b' ')?;
    push_plain(out, text.as_bytes())?;
    out.push(b'\n')?;
    Ok(())
}

fn push_number(out: &mut Vec<u8>, width: usize, number: u64) -> Result<(), AllocError>
    ensures { OnOk result (out.new.items ≡ out.old.items ++ spec.at_right width (decimal number)) }
{
    let mut buffer = Buffer::new();
    push_right(out, width, buffer.format(number).as_bytes())
}

#[tactic(auto, unfolding(crate::specs::Report::points_text))]
fn points_text(alloc: Global, halves: u64) -> Result<Vec<u8>, AllocError>
    ensures { IfOk result (λ text. text.items ≡ spec.points_text halves) }
{
    let mut buffer = Buffer::new();
    let mut text = Vec::from_slice(alloc, buffer.format(halves / 2).as_bytes())?;
    text.push(b'.')?;
    text.push(if halves % 2 == 0 { b'0' } else { b'5' })?;
    Ok(text)
}

#[tactic(auto, unfolding(crate::specs::Report::opponent_text))]
fn push_opponent(out: &mut Vec<u8>, number: u32) -> Result<(), AllocError>
    ensures { OnOk result (out.new.items ≡ out.old.items ++ spec.opponent_text number) }
{
    if number == 0 {
        out.extend_from_slice(b"0000")?;
        return Ok(());
    }
    push_number(out, 4, number as u64)
}

// A round of a player.
#[tactic(auto, unfolding(crate::specs::Report::cell_text))]
fn push_cell(out: &mut Vec<u8>, cell: Cell) -> Result<(), AllocError>
    ensures { OnOk result (out.new.items ≡ out.old.items ++ spec.cell_text cell) }
{
    out.extend_from_slice(b"  ")?;
    push_opponent(out, cell.opponent)?;
    out.push(b' ')?;
    out.push(cell.colour)?;
    out.push(b' ')?;
    out.push(cell.sign)?;
    Ok(())
}

fn push_cells(out: &mut Vec<u8>, number: u32, rounds: &[Vec<Meeting>]) -> Result<(), AllocError>
    ensures { OnOk result (out.new.items ≡ out.old.items
        ++ spec.cells_text number (map (λ round. round.items) rounds.now)) }
{
    for at in 0..rounds.len() {
        push_cell(out, cell_of(number, rounds[at].as_slice()))?;
    }
    Ok(())
}

// The half points of a player.
fn halves_of(number: u32, rounds: &[Vec<Meeting>]) -> u64
    requires { length rounds.now ≤ 99 }
    ensures halves { result ≡ spec.halves_in number (map (λ round. round.items) rounds.now) }
{
    let mut halves: u64 = 0;
    for at in 0..rounds.len() {
        halves += cell_of(number, rounds[at].as_slice()).halves as u64;
    }
    halves
}

// The rank of a player, from 1 on; 0 where none of 9,999 is known.
fn rank_at(places: &[usize], at: usize) -> u64
    ensures { result ≡ spec.rank_at places.now at }
{
    match places.get(at) {
        Some(place) if *place < 9_999 => *place as u64 + 1,
        _ => 0,
    }
}

// A player's number, sex and title.
#[tactic(auto, unfolding(crate::specs::Report::number_text))]
fn push_title(out: &mut Vec<u8>, number: u32, player: &Particulars<'_>) -> Result<(), AllocError>
    ensures { OnOk result (out.new.items ≡ out.old.items ++ spec.number_text number player.now) }
{
    out.extend_from_slice(b"001 ")?;
    push_number(out, 4, number as u64)?;
    out.push(b' ')?;
    push_left(out, 1, player.sex.as_bytes())?;
    push_right(out, 3, player.title.as_bytes())
}

// A player's name and rating.
#[tactic(auto, unfolding(crate::specs::Report::name_text))]
fn push_name(out: &mut Vec<u8>, player: &Particulars<'_>) -> Result<(), AllocError>
    ensures { OnOk result (out.new.items ≡ out.old.items ++ spec.name_text player.now) }
{
    out.push(b' ')?;
    push_left(out, 33, player.full_name.as_bytes())?;
    out.push(b' ')?;
    push_right(out, 4, player.rating.as_bytes())
}

// A player's federation, FIDE's number and the date of birth.
#[tactic(auto, unfolding(crate::specs::Report::known_text))]
fn push_known(out: &mut Vec<u8>, player: &Particulars<'_>) -> Result<(), AllocError>
    ensures { OnOk result (out.new.items ≡ out.old.items ++ spec.known_text player.now) }
{
    out.push(b' ')?;
    push_left(out, 3, player.federation.as_bytes())?;
    out.push(b' ')?;
    push_right(out, 11, player.fide_number.as_bytes())?;
    out.push(b' ')?;
    push_left(out, 10, player.born.as_bytes())
}

// What stands before a player's points.
#[tactic(auto, unfolding(crate::specs::Report::front_text))]
fn push_front(out: &mut Vec<u8>, number: u32, player: &Particulars<'_>) -> Result<(), AllocError>
    ensures { OnOk result (out.new.items ≡ out.old.items ++ spec.front_text number player.now) }
{
    push_title(out, number, player)?;
    push_name(out, player)?;
    push_known(out, player)?;
    out.push(b' ')?;
    Ok(())
}

// A player's points and rank.
#[tactic(auto, unfolding(crate::specs::Report::standing_text))]
fn push_standing(
    out: &mut Vec<u8>,
    alloc: Global,
    rounds: &[Vec<Meeting>],
    places: &[usize],
    at: u32,
) -> Result<(), AllocError>
    requires rounds { length rounds.now ≤ 99 }
    requires at { at < 9999 }
    ensures { OnOk result (out.new.items ≡ out.old.items
        ++ spec.standing_text (map (λ round. round.items) rounds.now) places.now at) }
{
    let points = points_text(alloc, halves_of(at + 1, rounds))?;
    push_right(out, 4, points.as_slice())?;
    out.push(b' ')?;
    push_number(out, 4, rank_at(places, at as usize))
}

// The line of a player, before whom so many stand.
#[tactic(auto, unfolding(crate::specs::Report::player_line))]
fn push_player(
    out: &mut Vec<u8>,
    alloc: Global,
    rounds: &[Vec<Meeting>],
    places: &[usize],
    at: u32,
    player: &Particulars<'_>,
) -> Result<(), AllocError>
    requires rounds { length rounds.now ≤ 99 }
    requires at { at < 9999 }
    ensures { OnOk result (out.new.items ≡ out.old.items
        ++ spec.player_line (map (λ round. round.items) rounds.now) places.now at player.now) }
{
    push_front(out, at + 1, player)?;
    push_standing(out, alloc, rounds, places, at)?;
    push_cells(out, at + 1, rounds)?;
    out.push(b'\n')?;
    Ok(())
}

// The lines of all players, of whom these places are known.
fn push_players(
    out: &mut Vec<u8>,
    alloc: Global,
    rounds: &[Vec<Meeting>],
    places: &[usize],
    players: &[Particulars<'_>],
) -> Result<(), AllocError>
    requires rounds { length rounds.now ≤ 99 }
    requires players { length players.now ≤ 9999 }
    ensures { OnOk result (out.new.items ≡ out.old.items
        ++ spec.players_text (map (λ round. round.items) rounds.now) places.now 0 players.now) }
{
    for at in 0..players.len() {
        push_player(out, alloc, rounds, places, at as u32, &players[at])?;
    }
    Ok(())
}

// The starting numbers of a team's players behind its first.
fn push_members(out: &mut Vec<u8>, numbers: &[u32]) -> Result<(), AllocError>
    ensures { OnOk result (out.new.items ≡ out.old.items ++ spec.members_text numbers.now) }
{
    for number in numbers {
        out.push(b' ')?;
        push_number(out, 4, *number as u64)?;
    }
    Ok(())
}

// The starting numbers of a team's players.
fn push_numbers(out: &mut Vec<u8>, numbers: &[u32]) -> Result<(), AllocError>
    ensures { OnOk result (out.new.items ≡ out.old.items ++ spec.numbers_text numbers.now) }
{
    match numbers {
        [] => Ok(()),
        [first, more @ ..] => {
            push_number(out, 4, *first as u64)?;
            push_members(out, more)
        }
    }
}

// The line of a team.
#[tactic(auto, unfolding(crate::specs::Report::team_line))]
fn push_team(out: &mut Vec<u8>, team: &Team<'_>) -> Result<(), AllocError>
    ensures { OnOk result (out.new.items ≡ out.old.items ++ spec.team_line team.now) }
{
    out.extend_from_slice(b"013 ")?;
    push_left(out, 32, team.name.as_bytes())?;
    push_numbers(out, team.numbers.as_slice())?;
    out.push(b'\n')?;
    Ok(())
}

fn push_teams(out: &mut Vec<u8>, teams: &[Team<'_>]) -> Result<(), AllocError>
    ensures { OnOk result (out.new.items ≡ out.old.items ++ spec.teams_text teams.now) }
{
    for at in 0..teams.len() {
        push_team(out, &teams[at])?;
    }
    Ok(())
}

// The day of a round, without its century.
fn push_day(out: &mut Vec<u8>, day: &str) -> Result<(), AllocError>
    ensures { OnOk result (out.new.items ≡ out.old.items ++ spec.day_text day.now) }
{
    out.extend_from_slice(b"  ")?;
    let day = day.as_bytes();
    let behind = if day.len() < 2 { &day[..0] } else { &day[2..] };
    push_left(out, 8, behind)
}

fn push_days(out: &mut Vec<u8>, days: &[&str]) -> Result<(), AllocError>
    ensures { OnOk result (out.new.items ≡ out.old.items ++ spec.days_text (map (λ day. day.now) days.now)) }
{
    for day in days {
        push_day(out, day)?;
    }
    Ok(())
}

// The days of the rounds, where any is given, each above its round.
#[tactic(auto, unfolding(crate::specs::Report::days_line))]
fn push_days_line(out: &mut Vec<u8>, days: &[&str]) -> Result<(), AllocError>
    ensures { OnOk result (out.new.items ≡ out.old.items ++ spec.days_line (map (λ day. day.now) days.now)) }
{
    if days.is_empty() {
        return Ok(());
    }
    out.extend_from_slice(b"132")?;
    push_spaces(out, 86)?;
    push_days(out, days)?;
    out.push(b'\n')?;
    Ok(())
}

fn push_rounds(out: &mut Vec<u8>, rounds: Option<u32>) -> Result<(), AllocError>
    ensures { OnOk result (out.new.items ≡ out.old.items ++ spec.rounds_line rounds) }
{
    if let Some(rounds) = rounds {
        let mut buffer = Buffer::new();
        push_line(out, "XXR", buffer.format(rounds))?;
    }
    Ok(())
}

// What and where the tournament is, and when.
#[tactic(auto, unfolding(crate::specs::Report::place_text))]
fn push_place(out: &mut Vec<u8>, tournament: &Tournament<'_>) -> Result<(), AllocError>
    ensures { OnOk result (out.new.items ≡ out.old.items ++ spec.place_text tournament.now) }
{
    push_line(out, "012", tournament.name)?;
    push_line(out, "022", tournament.city)?;
    push_line(out, "032", tournament.federation)?;
    push_line(out, "042", tournament.begins)?;
    push_line(out, "052", tournament.ends)
}

// How many of these players have a rating.
fn rated_among(players: &[Particulars<'_>]) -> u64
    ensures rated { result ≡ spec.rated_among players.now }
    ensures few { result ≤ length players.now }
{
    let mut rated: u64 = 0;
    for player in players {
        if !player.rating.is_empty() {
            rated += 1;
        }
    }
    rated
}

fn push_count(out: &mut Vec<u8>, id: &str, count: u64) -> Result<(), AllocError>
    ensures { OnOk result (out.new.items ≡ out.old.items ++ spec.line_of id.now (decimal count)) }
{
    let mut buffer = Buffer::new();
    push_line(out, id, buffer.format(count))
}

// How many players there are, how many of them have a rating, and how many teams there are.
#[tactic(auto, unfolding(crate::specs::Report::counts_text))]
fn push_counts(
    out: &mut Vec<u8>,
    players: &[Particulars<'_>],
    teams: usize,
) -> Result<(), AllocError>
    ensures { OnOk result (out.new.items ≡ out.old.items ++ spec.counts_text players.now teams) }
{
    push_count(out, "062", players.len() as u64)?;
    push_count(out, "072", rated_among(players))?;
    push_count(out, "082", teams as u64)
}

// Of which kind the tournament is, and who directs it.
#[tactic(auto, unfolding(crate::specs::Report::kind_text))]
fn push_kind(out: &mut Vec<u8>, tournament: &Tournament<'_>) -> Result<(), AllocError>
    ensures { OnOk result (out.new.items ≡ out.old.items ++ spec.kind_text tournament.now) }
{
    push_line(out, "092", tournament.kind)?;
    push_line(out, "102", tournament.arbiter)?;
    push_line(out, "112", tournament.deputy)?;
    push_line(out, "122", tournament.times)
}

// The lines of the tournament.
#[tactic(auto, unfolding(crate::specs::Report::tournament_text))]
fn push_tournament(
    out: &mut Vec<u8>,
    tournament: &Tournament<'_>,
    days: &[&str],
    players: &[Particulars<'_>],
    teams: usize,
) -> Result<(), AllocError>
    ensures { OnOk result (out.new.items ≡ out.old.items
        ++ spec.tournament_text tournament.now (map (λ day. day.now) days.now) players.now teams) }
{
    push_place(out, tournament)?;
    push_counts(out, players, teams)?;
    push_kind(out, tournament)?;
    push_days_line(out, days)?;
    push_rounds(out, tournament.rounds)
}

/// The report of a tournament (FIDE's TRF-16): of players in the order of their starting numbers, how many are before
/// each, the meetings of each round, their teams, and the days of the rounds, as `YYYY/MM/DD`, where they are known. It
/// fails where the columns have no room for that, or a number is no player's.
#[tactic(auto, unfolding(crate::specs::Report::report_text))]
pub fn report(
    alloc: Global,
    tournament: &Tournament<'_>,
    days: &[&str],
    players: &[Particulars<'_>],
    places: &[usize],
    teams: &[Team<'_>],
    rounds: &[Vec<Meeting>],
) -> Result<Vec<u8>, Fault>
    ensures text { IfOk result (λ text. text.items ≡ spec.report_text tournament.now (map (λ day. day.now) days.now)
        players.now places.now teams.now (map (λ round. round.items) rounds.now)) }
    ensures room { IfOk result (λ _. HasRoom tournament.now (length days.now) players.now teams.now rounds.now) }
    ensures fault { IfErr result (IsFault tournament.now (length days.now) players.now teams.now rounds.now) }
{
    if let Some(fault) = fault_in(tournament, days.len(), players, teams, rounds) {
        return Err(fault);
    }
    let mut text = Vec::new(alloc);
    push_tournament(&mut text, tournament, days, players, teams.len())?;
    push_players(&mut text, alloc, rounds, places, players)?;
    push_teams(&mut text, teams)?;
    Ok(text)
}
