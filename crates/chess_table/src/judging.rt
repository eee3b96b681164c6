ghost use Rattle.std.specs.Prelude.{◌≡◌, ◌≤◌, ◌++◌, ℕ, List, Option, Some, None, true, IfSome, IfNone};
ghost use Rattle.std.specs.Option.{option_copied};
ghost use Rattle.chess_bits.specs.declared.men.Colour.{Colour};
ghost use Rattle.chess_bits.specs.Man.{other};
ghost use Rattle.chess_board.specs.declared.moves.Move.{Move};
ghost use Rattle.chess_board.specs.Position.{Position};
ghost use Rattle.rec_codec.specs.Records.{entry};
ghost use Rattle.chess_entry.specs.declared.verdicts.Verdict.{Verdict};
ghost use Rattle.chess_entry.specs.declared.verdicts.Verdict.TheVariants.{Refuse, Enter};
ghost use Rattle.chess_entry.specs.State.{TableState, find_game, seat_of};
ghost use Rattle.chess_entry.specs.Parsed.{Parsed, parsed, bytes_of};
ghost use Rattle.chess_entry.specs.Verdict.{while_running, in_turn, for_move, for_stated, offered, are_times, in_game};
ghost use Rattle.chess_entry.specs.Verdict.{by_side, side_of, is_full, has_offer, open_verdict, join_verdict};
ghost use Rattle.chess_entry.specs.Verdict.{move_verdict, offer_verdict, accept_verdict, decline_verdict};
ghost use Rattle.chess_entry.specs.Verdict.{resign_verdict, claim_asked, claim_verdict, flag_verdict, drop_verdict};
ghost use Rattle.chess_entry.specs.Verdict.{player_verdict};
ghost use Rattle.chess_entry.specs.Verdict.{verdict, is_read, IsVerdict};
ghost use Rattle.chess_entry.specs.Table.{IsEnteredOn};
ghost use Rattle.chess_table.specs.Entered.{OnEnter};
ghost use Rattle.chess_table.specs.Checks.{stopped_by, opening_from};
ghost use Rattle.chess_table.specs.Asked.{game_of, asked_verdict, IsAskedBy, AsksNoSeat};
ghost use Rattle.chess_table.specs.Parsing.{IsTheStart, IsTheMove, IsTheParsed};

use crate::table::Table;
use chess_bits::Colour;
use chess_board::Board;
use chess_clock::is_time_control;
use chess_entry::{
    Act, Claim, Command, Entry, Event, GREATEST_MOMENT, GameNumber, Made, Name, Opening, Refusal,
    Text, Verdict, know_name,
};
use chess_fen::fen_read;
use chess_game::{Game, Times, is_finished};
use chess_san::read;
use rec_codec::StoredMove;

// What the text of a command tells: the start of a game, or a move.
#[derive(Clone, Copy)]
struct ParsedText {
    start: Option<Board>,
    mv: Option<StoredMove>,
}

// What a player claims: the number of moves, the rule, and whether a move is stated, with the legal move that is.
#[derive(Clone, Copy)]
pub(crate) struct Claimed {
    pub(crate) ply: u32,
    pub(crate) fifty: bool,
    pub(crate) states: bool,
    pub(crate) mv: Option<StoredMove>,
}

// What a player asks in a seat of a game.
#[derive(Clone, Copy)]
enum Asked {
    Move { ply: u32, mv: Option<StoredMove> },
    Offer,
    Accept,
    Decline,
    Resign,
    Claim(Claimed),
    Flag,
    Drop,
}

// The number of the game that an act is of; 0, which is no game's, where it is of none.
fn game_of(act: &Act) -> u32
    ensures { result ≡ game_of act.now }
{
    match act {
        Act::NewGame { .. } | Act::List => 0,
        Act::Join { game }
        | Act::Play { game, .. }
        | Act::Offer { game }
        | Act::Accept { game }
        | Act::Decline { game }
        | Act::Resign { game }
        | Act::Claim { game, .. }
        | Act::Flag { game }
        | Act::Remove { game }
        | Act::Show { game }
        | Act::Fen { game }
        | Act::Pgn { game } => *game,
    }
}

// The position that a game is to start from, where the text is the FEN of a valid one.
fn start_parsed(fen: &Option<Text>) -> Option<Board>
    ensures { IsTheStart (bytes_of fen.now) result }
{
    match fen {
        None => Some(Board::initial()),
        Some(text) => fen_read(text.as_str()).ok(),
    }
}

// The legal move that a text names in the position of a game, where the game is there.
fn move_parsed(found: Option<&Game>, text: &Text) -> Option<StoredMove>
    ensures { IsTheMove (option_copied found.entry) (Some text.now.bytes) result }
{
    let Some(game) = found else {
        return None;
    };
    match read(game.board(), text.as_str()) {
        Some(mv) => Some(StoredMove::new(mv)),
        None => None,
    }
}

// The same of a text that may be missing.
fn stated_parsed(found: Option<&Game>, text: &Option<Text>) -> Option<StoredMove>
    ensures { IsTheMove (option_copied found.entry) (bytes_of text.now) result }
{
    match text {
        None => None,
        Some(text) => move_parsed(found, text),
    }
}

// What the text of an act tells on the table, in which its game was looked up.
fn parsed_by(found: Option<&Game>, act: &Act) -> ParsedText
    ensures { (table : TableState) → option_copied found.entry ≡ find_game (game_of act.now) table.games
        → IsTheParsed table act.now (parsed result.start result.mv) }
{
    match act {
        Act::NewGame { fen, .. } => ParsedText {
            start: start_parsed(fen),
            mv: None,
        },
        Act::Play { text, .. } => ParsedText {
            start: None,
            mv: move_parsed(found, text),
        },
        Act::Claim { text, .. } => ParsedText {
            start: None,
            mv: stated_parsed(found, text),
        },
        _ => ParsedText {
            start: None,
            mv: None,
        },
    }
}

// An entry of a game becomes of the command.
fn entry_verdict(game: &Game, at: u64, event: Event) -> Verdict
    ensures { result ≡ Enter (entry game.now.number at event) }
{
    Verdict::Enter(Entry {
        game: game.number(),
        moment: at,
        event,
    })
}

// Both seats are taken, and the game is not over; where the flag of the side to move has fallen, that is the entry.
fn while_running(game: &Game, at: u64) -> Option<Verdict>
    requires { game.now.moment ≤ at }
    ensures { result ≡ stopped_by (while_running game.now at) }
{
    if !game.is_joined() {
        Some(Verdict::Refuse(Refusal::NotStarted))
    } else if game.is_over() {
        Some(Verdict::Refuse(Refusal::Over))
    } else if game.has_fallen(at) {
        Some(entry_verdict(game, at, Event::Fallen))
    } else {
        None
    }
}

// The number of moves is as the player says, and the player is on move.
fn in_turn(game: &Game, side: Colour, ply: u32) -> Option<Verdict>
    ensures { result ≡ stopped_by (in_turn game.now side ply) }
{
    if ply != game.ply() {
        Some(Verdict::Refuse(Refusal::WrongPly(game.ply())))
    } else if side != game.board().side() {
        Some(Verdict::Refuse(Refusal::NotYourMove))
    } else {
        None
    }
}

// Both of these.
fn while_in_turn(game: &Game, side: Colour, at: u64, ply: u32) -> Option<Verdict>
    requires { game.now.moment ≤ at }
    ensures { result ≡ stopped_by (while_running game.now at ++ in_turn game.now side ply) }
{
    match while_running(game, at) {
        Some(stop) => Some(stop),
        None => in_turn(game, side, ply),
    }
}

// There is room for a move, and the text named a legal one.
fn for_move(table: &Table, game: &Game, mv: &Option<StoredMove>) -> Option<Verdict>
    ensures { result ≡ stopped_by (for_move table.now game.now mv.now) }
{
    if table.limits().plies <= game.ply() {
        Some(Verdict::Refuse(Refusal::TooLong))
    } else if mv.is_none() {
        Some(Verdict::Refuse(Refusal::BadMove))
    } else {
        None
    }
}

// The same of a claim that states a move.
fn for_stated(table: &Table, game: &Game, claimed: &Claimed) -> Option<Verdict>
    ensures { result ≡ stopped_by (for_stated table.now game.now claimed.now.states claimed.now.mv) }
{
    if claimed.states {
        for_move(table, game, &claimed.mv)
    } else {
        None
    }
}

// There is no room for a game, or no number for it.
fn is_full(table: &Table) -> bool
    ensures { result ≡ is_full table.now }
{
    table.limits().games as usize <= table.games() || table.last() == u32::MAX
}

pub(crate) fn open_verdict(
    table: &Table,
    at: u64,
    name: Name,
    colour: Colour,
    times: Times,
    start: &Option<Board>,
) -> Verdict
    ensures { result ≡ open_verdict table.now at (opening_from colour times name)
        (are_times times.initial times.increment times.period) start.now }
{
    if !is_time_control(times.initial, times.increment, times.period) {
        return Verdict::Refuse(Refusal::BadTime);
    }
    let Some(start) = start else {
        return Verdict::Refuse(Refusal::BadFen);
    };
    if start.fullmove() > 9_999 {
        return Verdict::Refuse(Refusal::BadFen);
    }
    if is_finished(start) {
        return Verdict::Refuse(Refusal::Finished);
    }
    if is_full(table) {
        return Verdict::Refuse(Refusal::TooManyGames);
    }
    Verdict::Enter(Entry {
        game: GameNumber::new(table.last() + 1),
        moment: at,
        event: Event::Open(Opening {
            colour,
            initial: times.initial,
            increment: times.increment,
            period: times.period,
            name,
            start: *start,
        }),
    })
}

pub(crate) fn join_verdict(at: u64, name: &Name, game: &Game) -> Verdict
    ensures { result ≡ join_verdict at name.now game.now }
{
    if game.is_joined() {
        Verdict::Refuse(Refusal::Taken)
    } else if game.side_of(name).is_some() {
        Verdict::Refuse(Refusal::SamePlayer)
    } else {
        entry_verdict(game, at, Event::Join(*name))
    }
}

pub(crate) fn move_verdict(
    table: &Table,
    game: &Game,
    side: Colour,
    at: u64,
    ply: u32,
    mv: &Option<StoredMove>,
) -> Verdict
    requires { game.now.moment ≤ at }
    ensures { result ≡ move_verdict table.now at ply mv.now game.now side }
{
    if let Some(stop) = while_in_turn(game, side, at, ply) {
        return stop;
    }
    if let Some(stop) = for_move(table, game, mv) {
        return stop;
    }
    match mv {
        None => Verdict::Refuse(Refusal::BadMove),
        Some(mv) => entry_verdict(
            game,
            at,
            Event::Move(Made {
                mv: *mv,
                ply: game.ply(),
            }),
        ),
    }
}

// An offer stands.
fn has_offer(game: &Game) -> bool
    ensures { result ≡ has_offer game.now }
{
    game.offers(Colour::White) || game.offers(Colour::Black)
}

// An offer of the opponent stands.
fn is_offered(game: &Game, side: Colour) -> bool
    ensures { result ≡ (seat_of (other side) game.now).offers }
{
    game.offers(side.other())
}

// As a check: it is refused where none stands.
fn offered(game: &Game, side: Colour) -> Option<Verdict>
    ensures { result ≡ stopped_by (offered game.now side) }
{
    if is_offered(game, side) {
        None
    } else {
        Some(Verdict::Refuse(Refusal::NoOffer))
    }
}

// The checks of `while_running`, and this one.
fn while_offered(game: &Game, side: Colour, at: u64) -> Option<Verdict>
    requires { game.now.moment ≤ at }
    ensures { result ≡ stopped_by (while_running game.now at ++ offered game.now side) }
{
    match while_running(game, at) {
        Some(stop) => Some(stop),
        None => offered(game, side),
    }
}

pub(crate) fn offer_verdict(game: &Game, side: Colour, at: u64) -> Verdict
    requires { game.now.moment ≤ at }
    ensures { result ≡ offer_verdict at game.now side }
{
    if let Some(stop) = while_running(game, at) {
        return stop;
    }
    if has_offer(game) {
        return Verdict::Refuse(Refusal::OfferStands);
    }
    entry_verdict(game, at, Event::Offer(side))
}

pub(crate) fn accept_verdict(game: &Game, side: Colour, at: u64) -> Verdict
    requires { game.now.moment ≤ at }
    ensures { result ≡ accept_verdict at game.now side }
{
    if let Some(stop) = while_offered(game, side, at) {
        return stop;
    }
    if game.ply() < 2 {
        return Verdict::Refuse(Refusal::TooEarly);
    }
    entry_verdict(game, at, Event::Accept(side))
}

pub(crate) fn decline_verdict(game: &Game, side: Colour, at: u64) -> Verdict
    requires { game.now.moment ≤ at }
    ensures { result ≡ decline_verdict at game.now side }
{
    match while_offered(game, side, at) {
        Some(stop) => stop,
        None => entry_verdict(game, at, Event::Decline(side)),
    }
}

pub(crate) fn resign_verdict(game: &Game, side: Colour, at: u64) -> Verdict
    requires { game.now.moment ≤ at }
    ensures { result ≡ resign_verdict at game.now side }
{
    match while_running(game, at) {
        Some(stop) => stop,
        None => entry_verdict(game, at, Event::Resign(side)),
    }
}

pub(crate) fn flag_verdict(game: &Game, at: u64) -> Verdict
    requires { game.now.moment ≤ at }
    ensures { (side : Colour) → result ≡ flag_verdict at game.now side }
{
    match while_running(game, at) {
        Some(stop) => stop,
        None => Verdict::Refuse(Refusal::FlagUp),
    }
}

pub(crate) fn drop_verdict(game: &Game, at: u64) -> Verdict
    ensures { (side : Colour) → result ≡ drop_verdict at game.now side }
{
    if game.is_joined() && !game.is_over() {
        Verdict::Refuse(Refusal::NotOver)
    } else {
        entry_verdict(game, at, Event::Drop)
    }
}

pub(crate) fn claim_verdict(
    table: &Table,
    game: &Game,
    side: Colour,
    at: u64,
    claimed: &Claimed,
) -> Verdict
    requires { game.now.moment ≤ at }
    ensures { result ≡ claim_verdict table.now at
        (claim_asked claimed.now.ply claimed.now.fifty claimed.now.states claimed.now.mv) game.now side }
{
    if let Some(stop) = while_in_turn(game, side, at, claimed.ply) {
        return stop;
    }
    if game.claimed() {
        return Verdict::Refuse(Refusal::AlreadyClaimed);
    }
    if let Some(stop) = for_stated(table, game, claimed) {
        return stop;
    }
    entry_verdict(
        game,
        at,
        Event::Claim(Claim {
            by: side,
            fifty: claimed.fifty,
            mv: claimed.mv,
            ply: game.ply(),
        }),
    )
}

// The verdict on what the player of a side asks in a game.
fn asked_verdict(table: &Table, game: &Game, side: Colour, at: u64, asked: &Asked) -> Verdict
    requires { game.now.moment ≤ at }
    ensures { result ≡ asked_verdict table.now at asked.now game.now side }
{
    match asked {
        Asked::Move { ply, mv } => move_verdict(table, game, side, at, *ply, mv),
        Asked::Offer => offer_verdict(game, side, at),
        Asked::Accept => accept_verdict(game, side, at),
        Asked::Decline => decline_verdict(game, side, at),
        Asked::Resign => resign_verdict(game, side, at),
        Asked::Claim(claimed) => claim_verdict(table, game, side, at, claimed),
        Asked::Flag => flag_verdict(game, at),
        Asked::Drop => drop_verdict(game, at),
    }
}

// The same of a game that was looked up, in which the player may have no seat.
fn seat_verdict(table: &Table, found: Option<&Game>, name: &Name, at: u64, asked: &Asked) -> Verdict
    requires { IfSome found (λ game. game.now.moment ≤ at) }
    ensures { result ≡ in_game (λ game. by_side (asked_verdict table.now at asked.now game) (side_of name.now game))
        (option_copied found.entry) }
{
    let Some(game) = found else {
        return Verdict::Refuse(Refusal::NoGame);
    };
    match game.side_of(name) {
        Some(side) => asked_verdict(table, game, side, at, asked),
        None => Verdict::Refuse(Refusal::NotSeated),
    }
}

// The verdict on a read.
fn read_verdict(found: Option<&Game>, act: &Act) -> Verdict
    requires { is_read act.now ≡ true }
    ensures { (table : TableState) → option_copied found.entry ≡ find_game (game_of act.now) table.games
        → (at : ℕ) (name : List ℕ) (parsed : Parsed) → result ≡ player_verdict table at name parsed act.now }
{
    match act {
        Act::Show { .. } | Act::Fen { .. } | Act::Pgn { .. } => match found {
            Some(_) => Verdict::Read,
            None => Verdict::Refuse(Refusal::NoGame),
        },
        _ => Verdict::Read,
    }
}

// What an act asks in a seat, where it is one that is made there.
fn asked_by(act: &Act, mv: &Option<StoredMove>) -> Option<Asked>
    ensures some { IfSome result (λ asked. IsAskedBy act.now mv.now asked) }
    ensures none { IfNone result (AsksNoSeat act.now) }
{
    match act {
        Act::Play { ply, .. } => Some(Asked::Move { ply: *ply, mv: *mv }),
        Act::Offer { .. } => Some(Asked::Offer),
        Act::Accept { .. } => Some(Asked::Accept),
        Act::Decline { .. } => Some(Asked::Decline),
        Act::Resign { .. } => Some(Asked::Resign),
        Act::Claim {
            ply,
            fifty,
            text,
            ..
        } => Some(Asked::Claim(Claimed {
            ply: *ply,
            fifty: *fifty,
            states: text.is_some(),
            mv: *mv,
        })),
        Act::Flag { .. } => Some(Asked::Flag),
        Act::Remove { .. } => Some(Asked::Drop),
        _ => None,
    }
}

// The verdict on an act that a player may make; the act's game was looked up.
fn player_verdict(
    table: &Table,
    found: Option<&Game>,
    at: u64,
    name: &Name,
    named: &ParsedText,
    act: &Act,
) -> Verdict
    requires found { option_copied found ≡ find_game (game_of act.now) table.now.games }
    requires began { IfSome found (λ game. game.now.moment ≤ at) }
    ensures { result ≡ player_verdict table.now at name.now (parsed named.now.start named.now.mv) act.now }
{
    if let Some(asked) = asked_by(act, &named.mv) {
        return seat_verdict(table, found, name, at, &asked);
    }
    match act {
        Act::NewGame {
            colour,
            initial,
            increment,
            period,
            ..
        } => {
            let times = Times {
                initial: *initial,
                increment: *increment,
                period: *period,
            };
            open_verdict(table, at, *name, *colour, times, &named.start)
        }
        Act::Join { .. } => match found {
            Some(game) => join_verdict(at, name, game),
            None => Verdict::Refuse(Refusal::NoGame),
        },
        _ => read_verdict(found, act),
    }
}

// The verdict on a command, by what its text tells; its game was looked up.
fn checked(table: &Table, found: Option<&Game>, command: &Command, named: &ParsedText) -> Verdict
    requires found { option_copied found ≡ find_game (game_of command.now.act) table.now.games }
    requires began { IfSome found (λ game. game.now.moment ≤ table.now.moment) }
    ensures { result ≡ verdict table.now command.now (parsed named.now.start named.now.mv) }
{
    if command.at > GREATEST_MOMENT {
        return Verdict::Refuse(Refusal::BadMoment);
    }
    let at = table.moment().max(command.at);
    let Some(name) = command.who else {
        if command.act.is_read() {
            return read_verdict(found, &command.act);
        }
        return Verdict::Refuse(Refusal::NoName);
    };
    player_verdict(table, found, at, &name, named, &command.act)
}

/// What a command meets on a table: the first check that applies refuses it, or makes it the entry that a flag has
/// fallen; else it is a read, or becomes an entry, which may come on the table. The texts of moves are read in the
/// position that stands. It takes no memory and changes nothing.
pub fn judge(table: &Table, command: &Command) -> Verdict
    ensures verdict { IsVerdict table.now command.now result }
    ensures one { (other : Verdict) → IsVerdict table.now command.now other → other ≡ result }
    ensures coming { OnEnter result (IsEnteredOn table.now) }
{
    know_name(&command.who);
    let found = table.find(game_of(&command.act));
    let named = parsed_by(found, &command.act);
    checked(table, found, command, &named)
}
