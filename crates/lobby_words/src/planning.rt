//! What is done about a message.
ghost use Rattle.std.specs.Prelude.{◌≡◌};
ghost use Rattle.lobby_words.specs.Words as words;
ghost use Rattle.lobby_words.specs.Plans as plans;

use crate::refusals::Refusal;
use crate::words::{Call, Sort, cut_word, is_message, number_named, sort_of};
use player_name::Name;

/// For whom a connection acts.
#[derive(Clone, Copy)]
pub struct Identity {
    pub name: Name,
    pub is_arbiter: bool,
}

/// What is done with a player in the players' file.
#[derive(Clone, Copy)]
pub enum Change {
    /// He has a new link.
    NewLink,
    /// His link is closed, so that nobody has one.
    NoLink,
    /// He is added, with a link.
    NewPlayer,
}

/// What an arbiter has done with a player in the players' file.
#[derive(Clone, Copy)]
pub struct Order {
    pub name: Name,
    pub change: Change,
}

/// Whether whom a message names may be added to the players.
#[derive(Clone, Copy)]
pub enum Newcomer {
    /// The name is none.
    BadName,
    /// This player has it, or a name that differs in small and capital letters alone.
    Taken(Name),
    /// The full name is none.
    BadFullName,
    /// Nobody has this name, nor one like it.
    New(Name),
}

/// What a message is between its player, who is no arbiter, and another.
#[derive(Clone, Copy)]
pub enum Accord {
    /// Nothing.
    Nothing,
    /// The player offers the other a game.
    Offered,
    /// The other has offered just this game, and the player takes it.
    Agreed,
}

/// What is done about a message.
#[derive(Clone, Copy)]
pub enum Plan {
    Refuse(Refusal),
    /// The message is passed on.
    Read,
    /// The message is passed on under a name.
    Act(Identity),
    /// The line of an arbiter's message is passed on under the name of another.
    ActAs(Identity, Name),
    /// A game is opened under the name of White, and joined under that of Black.
    Pair(Identity, Name, Name),
    /// The pairing that the message says is what the player offers from now on.
    Offer(Identity),
    /// What was offered between the player and the one that the message names stands no more.
    Unpair(Identity),
    /// Which games are offered to the player, and by him, at this moment.
    Offers(Identity, u64),
    /// Who waits in the game is asked for, and the message is passed on under his name.
    Drop(Identity, u32),
    Login(Identity),
    /// Who the players are.
    Players,
    /// Which players are there.
    Who,
    /// No games are opened from now on, and games are again.
    Pause,
    Resume,
    /// Everybody is told something.
    Call(Call),
    /// A player's link is changed in the players' file, or a player is added there.
    Order(Order),
    /// No player is added, since this one has the name, or one that differs in small and capital letters alone.
    Taken(Name),
    Lobby,
    LeaveLobby,
    Watch(u32),
    Leave(u32),
    Line(u32),
    /// Which players of a game are there at this moment, and how many watch it.
    Room(u32, u64),
    /// The legal moves of the position that the message says.
    Moves,
}

/// What a plan rests on.
#[derive(Clone, Copy)]
pub struct Standing {
    /// For whom the connection acts.
    pub who: Option<Identity>,
    /// Who has the token that the message shows.
    pub holder: Option<Identity>,
    /// The name that stands behind the message's word, where a player has it.
    pub named: Option<Name>,
    /// The name that stands behind that one, where a player has it.
    pub black: Option<Name>,
    /// All that stands behind the message's word, where that is a name that a player has.
    pub linked: Option<Name>,
    /// Whether who is to be added by the message may be.
    pub newcomer: Newcomer,
    /// Whether the server is there.
    pub is_here: bool,
    /// Whether the connection watches as many games as may be.
    pub is_full: bool,
    /// Why the message does not act, by the clocks, or does not open or join a game, by the games that are known.
    pub bar: Option<Refusal>,
    /// What the message is between its player and another.
    pub accord: Accord,
    /// Why the two players of a pairing may not play it, by the clocks and the games that are known.
    pub pair_bar: Option<Refusal>,
    /// Whether the message opens a game, or is a pairing, while entries are paused.
    pub is_paused: bool,
    /// The moment of the message, in milliseconds of a clock that does not go back.
    pub at: u64,
}

/// Whether a message shows a token.
pub fn shows_token(text: &str) -> bool
    ensures { result ≡ words.is_login_sort (words.sort_of text.now) }
{
    matches!(sort_of(text), Sort::Login)
}

/// Whether a message asks for a change of the players' file.
pub fn asks_for_link(text: &str) -> bool
    ensures { result ≡ words.is_link_sort (words.sort_of text.now) }
{
    matches!(sort_of(text), Sort::Link | Sort::Close | Sort::Player)
}

/// Whether a message asks for a player more.
pub fn asks_for_player(text: &str) -> bool
    ensures { result ≡ words.is_player_sort (words.sort_of text.now) }
{
    matches!(sort_of(text), Sort::Player)
}

/// Whether a message asks for an arbiter's decision to be put.
pub fn asks_for_decision(text: &str) -> bool
    ensures { result ≡ words.is_decide_sort (words.sort_of text.now) }
{
    matches!(sort_of(text), Sort::Call(Call::Decide))
}

// What asks for the server.
fn asked(standing: &Standing, plan: Plan) -> Plan
    ensures { result ≡ plans.asked standing.now plan }
{
    if standing.is_here {
        plan
    } else {
        Plan::Refuse(Refusal::NoServer)
    }
}

// A plan, where nothing bars it.
fn barred(bar: Option<Refusal>, plan: Plan) -> Plan
    ensures { result ≡ plans.barred bar plan }
{
    bar.map_or(plan, Plan::Refuse)
}

// An act but a drop, where the games that are known do not bar it.
fn entered_plan(standing: &Standing, plan: Plan) -> Plan
    ensures { result ≡ plans.entered_plan standing.now plan }
{
    asked(standing, barred(standing.bar, plan))
}

// An act but a drop.
fn act_plan(standing: &Standing, who: Identity) -> Plan
    ensures { result ≡ plans.act_plan standing.now who }
{
    if standing.is_paused && !who.is_arbiter {
        Plan::Refuse(Refusal::EntriesPaused)
    } else {
        entered_plan(standing, Plan::Act(who))
    }
}

// An act of an arbiter under the name of another.
fn named_plan(standing: &Standing, who: Identity, named: Option<Name>) -> Plan
    ensures { result ≡ plans.named_plan standing.now who named }
{
    match named {
        None => Plan::Refuse(Refusal::NoPlayer),
        Some(name) => entered_plan(standing, Plan::ActAs(who, name)),
    }
}

// An act under the name of another.
fn as_plan(standing: &Standing, who: Identity) -> Plan
    ensures { result ≡ plans.as_plan standing.now who }
{
    if who.is_arbiter {
        named_plan(standing, who, standing.named)
    } else {
        Plan::Refuse(Refusal::NotArbiter)
    }
}

// A pairing of this White and Black.
fn black_plan(standing: &Standing, who: Identity, white: Name, black: Option<Name>) -> Plan
    ensures { result ≡ plans.black_plan standing.now who white black }
{
    match black {
        None => Plan::Refuse(Refusal::NoPlayer),
        Some(black) => asked(standing, Plan::Pair(who, white, black)),
    }
}

// A pairing of this White, and of who is Black by the message.
fn white_plan(standing: &Standing, who: Identity, white: Option<Name>) -> Plan
    ensures { result ≡ plans.white_plan standing.now who white }
{
    match white {
        None => Plan::Refuse(Refusal::NoPlayer),
        Some(white) => black_plan(standing, who, white, standing.black),
    }
}

// A pairing on which both players agree.
fn agreed_plan(standing: &Standing, who: Identity) -> Plan
    ensures { result ≡ plans.agreed_plan standing.now who }
{
    if standing.is_paused {
        Plan::Refuse(Refusal::EntriesPaused)
    } else {
        let plan = white_plan(standing, who, standing.named);
        barred(standing.pair_bar, plan)
    }
}

// A pairing of who is no arbiter.
fn offered_plan(standing: &Standing, who: Identity) -> Plan
    ensures { result ≡ plans.offered_plan standing.now who standing.now.accord }
{
    match standing.accord {
        Accord::Nothing => Plan::Refuse(Refusal::NotArbiter),
        Accord::Offered => Plan::Offer(who),
        Accord::Agreed => agreed_plan(standing, who),
    }
}

// A pairing.
fn pair_plan(standing: &Standing, who: Identity) -> Plan
    ensures { result ≡ plans.pair_plan standing.now who }
{
    if who.is_arbiter {
        white_plan(standing, who, standing.named)
    } else {
        offered_plan(standing, who)
    }
}

// What an arbiter alone may ask for.
fn arbiter_plan(who: Identity, plan: Plan) -> Plan
    ensures { result ≡ plans.arbiter_plan who plan }
{
    if who.is_arbiter {
        plan
    } else {
        Plan::Refuse(Refusal::NotArbiter)
    }
}

// The link of a player is changed, or closed.
fn order_plan(change: Change, linked: Option<Name>) -> Plan
    ensures { result ≡ plans.order_plan change linked }
{
    match linked {
        None => Plan::Refuse(Refusal::NoPlayer),
        Some(name) => Plan::Order(Order { name, change }),
    }
}

// A player is added.
fn newcomer_plan(newcomer: Newcomer) -> Plan
    ensures { result ≡ plans.newcomer_plan newcomer }
{
    match newcomer {
        Newcomer::BadName => Plan::Refuse(Refusal::BadName),
        Newcomer::Taken(name) => Plan::Taken(name),
        Newcomer::BadFullName => Plan::Refuse(Refusal::BadFullName),
        Newcomer::New(name) => Plan::Order(Order {
            name,
            change: Change::NewPlayer,
        }),
    }
}

/// What a plan has done in the players' file.
pub fn order_of(plan: &Plan) -> Option<Order>
    ensures { result ≡ plans.order_of plan.now }
{
    match plan {
        Plan::Order(order) => Some(*order),
        _ => None,
    }
}

// A token is shown.
fn login_plan(holder: Option<Identity>) -> Plan
    ensures { result ≡ plans.login_plan holder }
{
    match holder {
        None => Plan::Refuse(Refusal::BadToken),
        Some(who) => Plan::Login(who),
    }
}

// A word with the number of a game.
fn game_plan(sort: Sort, standing: &Standing, who: Identity, game: u32) -> Plan
    ensures { result ≡ plans.game_plan sort standing.now who game }
{
    match sort {
        Sort::Watch => {
            if standing.is_full {
                asked(standing, Plan::Refuse(Refusal::TooManyWatched))
            } else {
                asked(standing, Plan::Watch(game))
            }
        }
        Sort::Line => asked(standing, Plan::Line(game)),
        Sort::Drop => asked(standing, Plan::Drop(who, game)),
        Sort::Room => Plan::Room(game, standing.at),
        _ => Plan::Leave(game),
    }
}

// What is done about a message of a sort of who acts for this player.
fn sort_plan(sort: Sort, standing: &Standing, who: Identity, game: Option<u32>) -> Plan
    ensures { result ≡ plans.sort_plan sort standing.now who game }
{
    match sort {
        Sort::Read => asked(standing, Plan::Read),
        Sort::Act => act_plan(standing, who),
        Sort::As => as_plan(standing, who),
        Sort::Pair => pair_plan(standing, who),
        Sort::Unpair => Plan::Unpair(who),
        Sort::Offers => Plan::Offers(who, standing.at),
        Sort::Login => login_plan(standing.holder),
        Sort::Players => Plan::Players,
        Sort::Who => Plan::Who,
        Sort::Pause => arbiter_plan(who, Plan::Pause),
        Sort::Resume => arbiter_plan(who, Plan::Resume),
        Sort::Call(call) => arbiter_plan(who, barred(standing.bar, Plan::Call(call))),
        Sort::Link => arbiter_plan(who, order_plan(Change::NewLink, standing.linked)),
        Sort::Close => arbiter_plan(who, order_plan(Change::NoLink, standing.linked)),
        Sort::Player => arbiter_plan(who, newcomer_plan(standing.newcomer)),
        Sort::Lobby => asked(standing, Plan::Lobby),
        Sort::LeaveLobby => Plan::LeaveLobby,
        Sort::Moves => Plan::Moves,
        Sort::Name | Sort::Nothing => Plan::Refuse(Refusal::BadLine),
        Sort::Watch | Sort::Leave | Sort::Line | Sort::Room | Sort::Drop => match game {
            None => Plan::Refuse(Refusal::BadLine),
            Some(game) => game_plan(sort, standing, who, game),
        },
    }
}

// What is done about a message of who acts for nobody: a token may be shown, and nothing else may be said.
fn stranger_plan(sort: Sort, standing: &Standing) -> Plan
    ensures { result ≡ plans.stranger_plan (words.is_login_sort sort) standing.now }
{
    match sort {
        Sort::Login => login_plan(standing.holder),
        _ => Plan::Refuse(Refusal::NoToken),
    }
}

/// What is done about a message.
pub fn plan_of(standing: &Standing, text: &str) -> Plan
    ensures { result ≡ plans.plan_of (words.is_message text.now) (words.sort_of text.now) standing.now
        (words.u32_in (words.rest_of text.now)) }
{
    let (_, rest) = cut_word(text);
    let game = number_named(rest);
    let sort = sort_of(text);
    if !is_message(text) {
        return Plan::Refuse(Refusal::BadLine);
    }
    match standing.who {
        None => stranger_plan(sort, standing),
        Some(who) => sort_plan(sort, standing, who, game),
    }
}
