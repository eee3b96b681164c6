//! What the fields of an answer say.
ghost use Rattle.std.specs.Prelude.{◌≡◌};
ghost use Rattle.server_answers.specs.Values as spec;

use player_name::Name;
use text_parts::number_named;

/// Who sits in the seats of a game; nobody where one is empty.
#[derive(Clone, Copy)]
pub struct Seats {
    pub white: Option<Name>,
    pub black: Option<Name>,
}

/// A side of the board.
#[derive(Clone, Copy)]
pub enum Side {
    White,
    Black,
}

/// What both sides have left, in milliseconds.
#[derive(Clone, Copy)]
pub struct Clocks {
    pub white_ms: u64,
    pub black_ms: u64,
}

/// Whether an offer of a draw by a side stands.
#[derive(Clone, Copy)]
pub struct Offers {
    pub white: bool,
    pub black: bool,
}

/// What a game gave: who won, or that nobody did.
#[derive(Clone, Copy)]
pub enum GameResult {
    White,
    Black,
    Draw,
}

/// The article of the FIDE Laws of Chess by which a game ended.
#[derive(Clone, Copy)]
pub enum Article {
    /// 5.1.1: checkmate.
    A511,
    /// 5.1.2: a player resigned.
    A512,
    /// 5.2.1: stalemate.
    A521,
    /// 5.2.2: a dead position.
    A522,
    /// 5.2.3: the players agreed on a draw.
    A523,
    /// 6.9: a player's time was over.
    A69,
    /// 9.2: a claim that the position had come three times.
    A92,
    /// 9.3: a claim of fifty moves of each side without a capture or a pawn move.
    A93,
    /// 9.6.1: the position had come five times.
    A961,
    /// 9.6.2: 75 moves of each side without a capture or a pawn move.
    A962,
}

/// How a game ended.
#[derive(Clone, Copy)]
pub struct Ending {
    pub result: GameResult,
    pub article: Article,
}

impl GameResult {
    /// As the server spells it.
    pub fn as_str(self) -> &'static str
        ensures { result.now ≡ spec.score_text self }
    {
        match self {
            GameResult::White => "1-0",
            GameResult::Black => "0-1",
            GameResult::Draw => "1/2-1/2",
        }
    }
}

impl Article {
    /// Its number, as the server spells it.
    pub fn as_str(self) -> &'static str
        ensures { result.now ≡ spec.article_text self }
    {
        match self {
            Article::A511 => "5.1.1",
            Article::A512 => "5.1.2",
            Article::A521 => "5.2.1",
            Article::A522 => "5.2.2",
            Article::A523 => "5.2.3",
            Article::A69 => "6.9",
            Article::A92 => "9.2",
            Article::A93 => "9.3",
            Article::A961 => "9.6.1",
            Article::A962 => "9.6.2",
        }
    }
}

/// A seat as the server spells it: the name of who sits there, or `-`.
pub fn seat_text(seat: &Option<Name>) -> &str
    ensures { result.now ≡ spec.seat_text seat.now }
{
    match seat {
        Some(name) => name.as_str(),
        None => "-",
    }
}

/// RESULT of a game as the server spells it, which is `*` while the game goes on.
pub fn result_text(ending: Option<Ending>) -> &'static str
    ensures { result.now ≡ spec.ending_result ending }
{
    match ending {
        Some(ending) => ending.result.as_str(),
        None => "*",
    }
}

#[tactic(auto, using(crate::proofs::Names::name_is, crate::proofs::Names::name_is_not))]
// Who sits in a seat.
fn seat_of(field: &str) -> Option<Option<Name>>
    ensures { result ≡ spec.seat_in field.now }
{
    if field == "-" {
        return Some(None);
    }
    match Name::try_new(field) {
        Some(name) => Some(Some(name)),
        None => None,
    }
}

/// Who sits in both seats; `None` where a field is neither a name nor `-`.
pub fn seats_of(white: &str, black: &str) -> Option<Seats>
    ensures { result ≡ spec.seats_in white.now black.now }
{
    let white = seat_of(white)?;
    let black = seat_of(black)?;
    Some(Seats { white, black })
}

/// The side of a letter.
pub fn side_of(field: &str) -> Option<Side>
    ensures { result ≡ spec.side_in field.now }
{
    match field {
        "w" => Some(Side::White),
        "b" => Some(Side::Black),
        _ => None,
    }
}

/// What both sides have left.
pub fn clocks_of(white: &str, black: &str) -> Option<Clocks>
    ensures { result ≡ spec.clocks_in white.now black.now }
{
    let white_ms = number_named(white)?;
    let black_ms = number_named(black)?;
    Some(Clocks { white_ms, black_ms })
}

/// The offers that stand, by the letters of their sides.
pub fn offers_of(field: &str) -> Option<Offers>
    ensures { result ≡ spec.offers_in field.now }
{
    let (white, black) = match field {
        "-" => (false, false),
        "w" => (true, false),
        "b" => (false, true),
        "wb" => (true, true),
        _ => return None,
    };
    Some(Offers { white, black })
}

// What a game gave that is over.
fn score_of(field: &str) -> Option<GameResult>
    ensures { result ≡ spec.score_in field.now }
{
    match field {
        "1-0" => Some(GameResult::White),
        "0-1" => Some(GameResult::Black),
        "1/2-1/2" => Some(GameResult::Draw),
        _ => None,
    }
}

/// What a game gave, or nothing where it goes on.
pub fn result_of(field: &str) -> Option<Option<GameResult>>
    ensures { result ≡ spec.result_in field.now }
{
    if field == "*" {
        return Some(None);
    }
    let score = score_of(field)?;
    Some(Some(score))
}

// The article of a number.
fn article_of(field: &str) -> Option<Article>
    ensures { result ≡ spec.article_in field.now }
{
    match field {
        "5.1.1" => Some(Article::A511),
        "5.1.2" => Some(Article::A512),
        "5.2.1" => Some(Article::A521),
        "5.2.2" => Some(Article::A522),
        "5.2.3" => Some(Article::A523),
        "6.9" => Some(Article::A69),
        "9.2" => Some(Article::A92),
        "9.3" => Some(Article::A93),
        "9.6.1" => Some(Article::A961),
        "9.6.2" => Some(Article::A962),
        _ => None,
    }
}

/// How a game ended, by its result and its article.
pub fn end_of(score: &str, article: &str) -> Option<Ending>
    ensures { result ≡ spec.end_in score.now article.now }
{
    let result = score_of(score)?;
    let article = article_of(article)?;
    Some(Ending { result, article })
}

/// How a game ended, or nothing where it goes on.
pub fn ending_of(score: &str, article: &str) -> Option<Option<Ending>>
    ensures { result ≡ spec.ending_in score.now article.now }
{
    let goes_on = score == "*";
    let has_none = article == "-";
    if goes_on & has_none {
        return Some(None);
    }
    let ending = end_of(score, article)?;
    Some(Some(ending))
}
