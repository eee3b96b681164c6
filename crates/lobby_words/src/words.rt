//! What the first word of a message says.
ghost use Rattle.std.specs.Prelude.{◌≡◌};
ghost use Rattle.std.specs.List.{list_all};
ghost use Rattle.lobby_words.specs.Words as words;

/// What an arbiter has everybody told.
#[derive(Clone, Copy)]
pub enum Call {
    /// All clocks stand still from now on.
    StopClocks,
    /// They run again.
    StartClocks,
    /// What he announces, or that he announces nothing any more.
    Announce,
    /// Which result a board has by his decision.
    Decide,
}

/// What a message asks for.
#[derive(Clone, Copy)]
pub enum Sort {
    /// A line of the server that changes nothing.
    Read,
    /// An act, but `drop`.
    Act,
    /// An act, but `drop`, under the name of another.
    As,
    /// A game is opened for one player and joined for another.
    Pair,
    /// What was offered between the player and another stands no more.
    Unpair,
    /// Which games are offered to the player, and by him.
    Offers,
    Drop,
    Login,
    Players,
    /// Which players are there.
    Who,
    /// No games are opened from now on, and games are again.
    Pause,
    Resume,
    /// Everybody is told something.
    Call(Call),
    /// A player has a new link from now on, or none.
    Link,
    Close,
    /// A player more has a link from now on.
    Player,
    Lobby,
    LeaveLobby,
    Watch,
    Leave,
    Line,
    /// Which players of a game are there, and how many watch it.
    Room,
    /// The legal moves of a position.
    Moves,
    /// The server's `name`, which no connection says.
    Name,
    /// Nothing that is known here.
    Nothing,
}

/// The first word, and what stands behind the space after it.
pub fn cut_word(text: &str) -> (&str, &str)
    ensures word { result.0.now ≡ words.word_of text.entry.now }
    ensures rest { result.1.now ≡ words.rest_of text.entry.now }
{
    text_parts::cut(text, ' ')
}

/// Whether each byte may stand in a message: it is one of 32 to 126.
pub fn are_message_bytes(bytes: &[u8]) -> bool
    ensures { result ≡ list_all words.is_message_byte bytes.now }
{
    bytes.iter().all(|byte| (32..=126).contains(byte))
}

/// Whether a message may be passed on as a line: 1 to 255 bytes, each of them 32 to 126.
pub fn is_message(text: &str) -> bool
    ensures { result ≡ words.is_message text.now }
{
    let bytes = text.as_bytes();
    !bytes.is_empty() && bytes.len() <= 255 && are_message_bytes(bytes)
}

// Whether a line of the server with this word asks about a game.
#[tactic(auto, unfolding(crate::specs::Words::is_show_word))]
fn is_show_word(word: &str) -> bool
    ensures { result ≡ words.is_show_word word.now }
{
    matches!(word, "show" | "fen" | "pgn")
}

// Whether each byte is a digit.
fn are_digit_bytes(bytes: &[u8]) -> bool
    ensures { result ≡ list_all words.is_digit bytes.now }
{
    bytes.iter().all(|byte| (48..=57).contains(byte))
}

// Whether a text has digits alone, one or more.
fn are_digits(text: &str) -> bool
    ensures { result ≡ words.are_digits text.now }
{
    let bytes = text.as_bytes();
    !bytes.is_empty() && are_digit_bytes(bytes)
}

// Whether a message is a line of the server that changes nothing: about a game, with its number and nothing more, or
// `list` alone.
#[tactic(auto, unfolding(crate::specs::Words::is_read))]
fn is_read(text: &str) -> bool
    ensures { result ≡ words.is_read text.now }
{
    let (word, rest) = cut_word(text);
    is_show_word(word) && are_digits(rest) || word == "list" && word == text
}

/// Whether a line of the server with this word is an act in a game that is played.
#[tactic(auto, unfolding(crate::specs::Words::is_play_word))]
pub fn is_play_word(word: &str) -> bool
    ensures { result ≡ words.is_play_word word.now }
{
    matches!(
        word,
        "move" | "offer" | "accept" | "decline" | "resign" | "claim" | "flag"
    )
}

// Whether a line of the server with this word is an act, but `drop`.
#[tactic(auto, unfolding(crate::specs::Words::is_act_word))]
fn is_act_word(word: &str) -> bool
    ensures { result ≡ words.is_act_word word.now }
{
    matches!(word, "open" | "join") || is_play_word(word)
}

/// The name in a message `as NAME LINE`.
pub fn as_name(text: &str) -> &str
    ensures { result.now ≡ words.as_name text.entry.now }
{
    let (_, rest) = cut_word(text);
    let (name, _) = cut_word(rest);
    name
}

/// The line in a message `as NAME LINE`.
pub fn as_line(text: &str) -> &str
    ensures { result.now ≡ words.as_line text.entry.now }
{
    let (_, rest) = cut_word(text);
    let (_, line) = cut_word(rest);
    line
}

/// The line of the server that a message is: of `as NAME LINE` that LINE, else the message itself.
pub fn line_said(text: &str) -> &str
    ensures { result.now ≡ words.line_said text.entry.now }
{
    let (word, _) = cut_word(text);
    if word == "as" { as_line(text) } else { text }
}

/// The name under which a message of this player acts: of `as NAME LINE` that NAME, else the player's.
pub fn actor<'a>(by: &'a str, text: &'a str) -> &'a str
    ensures { result.now ≡ words.actor by.now text.now }
{
    let (word, _) = cut_word(text);
    if word == "as" { as_name(text) } else { by }
}

/// Whether a message begins with the word of a pairing, `pair WHITE BLACK TIMES`; its form may be another.
pub fn is_pair(text: &str) -> bool
    ensures { result ≡ words.is_pair text.now }
{
    let (word, _) = cut_word(text);
    word == "pair"
}

/// The name of BLACK in a message `pair WHITE BLACK TIMES`; `as_name` tells that of WHITE.
pub fn black_name(text: &str) -> &str
    ensures { result.now ≡ words.black_name text.entry.now }
{
    let (name, _) = cut_word(as_line(text));
    name
}

/// What stands behind BLACK in a message `pair WHITE BLACK TIMES`.
pub fn pair_times(text: &str) -> &str
    ensures { result.now ≡ words.pair_times text.entry.now }
{
    let (_, times) = cut_word(as_line(text));
    times
}

/// The full name in a message `player NAME FULL NAME`; where none stands there, NAME.
pub fn full_said(text: &str) -> &str
    ensures { result.now ≡ words.full_said text.entry.now }
{
    let full_name = as_line(text);
    if full_name.is_empty() {
        as_name(text)
    } else {
        full_name
    }
}

// What a message asks for whose word is `pair`: two players, and times with which the line that opens is not too long.
fn pair_sort(text: &str) -> Sort
    ensures { result ≡ words.pair_sort text.now }
{
    let are_one = as_name(text) == black_name(text);
    let times = pair_times(text);
    if !are_one && !times.is_empty() && times.len() <= 244 {
        Sort::Pair
    } else {
        Sort::Nothing
    }
}

// What a message asks for whose word is `as`.
fn as_sort(text: &str) -> Sort
    ensures { result ≡ words.as_sort text.now }
{
    let (word, _) = cut_word(as_line(text));
    if is_act_word(word) {
        Sort::As
    } else {
        Sort::Nothing
    }
}

// What a message of one word asks for, or one of two that has no number.
fn whole_sort(text: &str) -> Sort
    ensures { result ≡ words.whole_sort text.now }
{
    match text {
        "players" => Sort::Players,
        "who" => Sort::Who,
        "offers" => Sort::Offers,
        "pause entries" => Sort::Pause,
        "resume entries" => Sort::Resume,
        "lobby" => Sort::Lobby,
        "leave lobby" => Sort::LeaveLobby,
        _ => call_sort(text),
    }
}

// What a message of an arbiter's asks for by which everybody is told something.
fn call_sort(text: &str) -> Sort
    ensures { result ≡ words.call_sort text.now }
{
    let (word, _) = cut_word(text);
    if word == "stop" && as_name(text) == "clocks" && !as_line(text).is_empty() {
        Sort::Call(Call::StopClocks)
    } else if text == "start clocks" {
        Sort::Call(Call::StartClocks)
    } else if word == "announce" {
        Sort::Call(Call::Announce)
    } else if is_decision(text) && !as_line(pair_times(text)).is_empty() {
        Sort::Call(Call::Decide)
    } else {
        Sort::Nothing
    }
}

/// Whether a message is an arbiter's decision, by its word.
pub fn is_decision(text: &str) -> bool
    ensures { result ≡ words.is_decision text.now }
{
    let (word, _) = cut_word(text);
    word == "decide"
}

/// Whether a message is of the clocks, by its word.
pub fn is_of_clocks(text: &str) -> bool
    ensures { result ≡ words.is_of_clocks text.now }
{
    let (word, _) = cut_word(text);
    matches!(word, "stop" | "start")
}

// What a message of the lobby's own words asks for.
fn own_sort(word: &str, text: &str) -> Sort
    ensures { result ≡ words.own_sort word.now text.now }
{
    match word {
        "login" => Sort::Login,
        "watch" => Sort::Watch,
        "line" => Sort::Line,
        "room" => Sort::Room,
        "moves" => Sort::Moves,
        "leave" if text != "leave lobby" => Sort::Leave,
        _ => arbiter_sort(word, text),
    }
}

// What a message asks for whose word is of players or of pairings.
fn arbiter_sort(word: &str, text: &str) -> Sort
    ensures { result ≡ words.arbiter_sort word.now text.now }
{
    match word {
        "link" => Sort::Link,
        "close" => Sort::Close,
        "pair" => pair_sort(text),
        "player" => Sort::Player,
        "unpair" => Sort::Unpair,
        _ => whole_sort(text),
    }
}

/// What a message asks for.
#[tactic(auto, unfolding(crate::specs::Words::sort_of))]
pub fn sort_of(text: &str) -> Sort
    ensures { result ≡ words.sort_of text.now }
{
    let (word, _) = cut_word(text);
    if word == "name" {
        Sort::Name
    } else if is_read(text) {
        Sort::Read
    } else if is_act_word(word) {
        Sort::Act
    } else if word == "drop" {
        Sort::Drop
    } else if word == "as" {
        as_sort(text)
    } else {
        own_sort(word, text)
    }
}

/// The number that a text spells, in the one spelling that a line of the server has.
pub fn number_named(text: &str) -> Option<u32>
    ensures { result ≡ words.u32_in text.now }
{
    text_parts::number_of_32_bits(text)
}

/// The number that a text spells, in the spelling of the server's lines, and 0 where it spells none.
pub fn number_or_0(text: &str) -> u32
    ensures { result ≡ words.number_or_0 text.now }
{
    number_named(text).unwrap_or(0)
}
