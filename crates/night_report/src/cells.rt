//! What a player's round is.
ghost use Rattle.std.specs.Prelude.{◌≡◌, ◌≤◌};
ghost use Rattle.night_report.specs.Cells as spec;

/// What came of a game.
#[derive(Clone, Copy)]
pub enum Score {
    White,
    Black,
    Draw,
    /// White has a draw, and Black has lost, as an arbiter may decide (FIDE article 11.3.2.2); and the other way round.
    HalfWhite,
    HalfBlack,
    /// Both have lost.
    Neither,
    /// The game goes on, or has not begun.
    Open,
}

/// How a game ended: over the board; before both sides had made a move; or so by a player who did not come.
#[derive(Clone, Copy)]
pub enum Play {
    Board,
    Short,
    Forfeit,
}

/// Why a player has no opponent in a round, by its sign in a report.
#[derive(Clone, Copy)]
pub enum Bye {
    /// `U`: none was left to be paired with. It is worth a point.
    Pairing,
    /// `F`: a point, as was asked for.
    Full,
    /// `H`: half a point, as was asked for.
    Half,
    /// `Z`: no point, for who is away.
    Zero,
}

/// Whom a player has in a round: an opponent, by the starting number, or nobody.
#[derive(Clone, Copy)]
pub enum Opponent {
    Player(u32),
    Bye(Bye),
}

/// Two players of a round by their starting numbers, or one who has a bye, and the number of their board.
#[derive(Clone, Copy)]
pub struct Meeting {
    pub board: u32,
    pub white: u32,
    pub black: Opponent,
    pub score: Score,
    pub play: Play,
}

/// A player's round: the opponent's starting number or 0, the sign of the colour, that of the result, half points, and
/// whether it was not played, by a forfeit.
#[derive(Clone, Copy)]
pub struct Cell {
    pub opponent: u32,
    pub colour: u8,
    pub sign: u8,
    pub halves: u8,
    pub is_forfeit: bool,
}

fn win_sign(play: Play) -> u8
    ensures { result ≡ spec.win_sign play }
{
    match play {
        Play::Board => b'1',
        Play::Short => b'W',
        Play::Forfeit => b'+',
    }
}

fn draw_sign(play: Play) -> u8
    ensures { result ≡ spec.draw_sign play }
{
    match play {
        Play::Board | Play::Forfeit => b'=',
        Play::Short => b'D',
    }
}

fn loss_sign(play: Play) -> u8
    ensures { result ≡ spec.loss_sign play }
{
    match play {
        Play::Board => b'0',
        Play::Short => b'L',
        Play::Forfeit => b'-',
    }
}

// How a game came in which one side alone has half a point: never by a forfeit, which has no sign for that.
fn half_play(play: Play) -> Play
    ensures { result ≡ spec.half_play play }
{
    match play {
        Play::Board | Play::Forfeit => Play::Board,
        Play::Short => Play::Short,
    }
}

// White's sign.
fn white_sign(score: Score, play: Play) -> u8
    ensures { result ≡ spec.white_sign score play }
{
    match score {
        Score::White => win_sign(play),
        Score::Black => loss_sign(play),
        Score::Draw | Score::HalfWhite => draw_sign(play),
        Score::HalfBlack => loss_sign(half_play(play)),
        Score::Neither => loss_sign(play),
        Score::Open => b' ',
    }
}

// White's half points.
fn white_halves(score: Score) -> u8
    ensures halves { result ≡ spec.white_halves score }
    ensures few { result ≤ 2 }
{
    match score {
        Score::White => 2,
        Score::Draw | Score::HalfWhite => 1,
        Score::Black | Score::HalfBlack | Score::Neither | Score::Open => 0,
    }
}

// The score with the colours changed.
fn turned(score: Score) -> Score
    ensures { result ≡ spec.turned score }
{
    match score {
        Score::White => Score::Black,
        Score::Black => Score::White,
        Score::HalfWhite => Score::HalfBlack,
        Score::HalfBlack => Score::HalfWhite,
        Score::Draw | Score::Neither | Score::Open => score,
    }
}

// The sign of a bye.
fn bye_sign(bye: Bye) -> u8
    ensures { result ≡ spec.bye_sign bye }
{
    match bye {
        Bye::Pairing => b'U',
        Bye::Full => b'F',
        Bye::Half => b'H',
        Bye::Zero => b'Z',
    }
}

// Its half points.
fn bye_halves(bye: Bye) -> u8
    ensures halves { result ≡ spec.bye_halves bye }
    ensures few { result ≤ 2 }
{
    match bye {
        Bye::Pairing | Bye::Full => 2,
        Bye::Half => 1,
        Bye::Zero => 0,
    }
}

// The round of who has a bye.
fn bye_cell(bye: Bye) -> Cell
    ensures cell { result ≡ spec.bye_cell bye }
    ensures few { result.halves ≤ 2 }
{
    Cell {
        opponent: 0,
        colour: b'-',
        sign: bye_sign(bye),
        halves: bye_halves(bye),
        is_forfeit: false,
    }
}

/// White's round.
pub(crate) fn white_cell(meeting: Meeting) -> Cell
    ensures cell { result ≡ spec.white_cell meeting meeting.black }
    ensures few { result.halves ≤ 2 }
{
    match meeting.black {
        Opponent::Bye(bye) => bye_cell(bye),
        Opponent::Player(black) => Cell {
            opponent: black,
            colour: b'w',
            sign: white_sign(meeting.score, meeting.play),
            halves: white_halves(meeting.score),
            is_forfeit: matches!(meeting.play, Play::Forfeit),
        },
    }
}

/// Black's round.
pub(crate) fn black_cell(meeting: Meeting) -> Cell
    ensures cell { result ≡ spec.black_cell meeting }
    ensures few { result.halves ≤ 2 }
{
    let score = turned(meeting.score);
    Cell {
        opponent: meeting.white,
        colour: b'b',
        sign: white_sign(score, meeting.play),
        halves: white_halves(score),
        is_forfeit: matches!(meeting.play, Play::Forfeit),
    }
}

fn is_number(number: u32, black: Opponent) -> bool
    ensures { result ≡ spec.is_number number black }
{
    match black {
        Opponent::Bye(_) => false,
        Opponent::Player(black) => black == number,
    }
}

/// The round of a player, by the first meeting in which the player has a seat; who has none gets no point.
pub fn cell_of(number: u32, round: &[Meeting]) -> Cell
    ensures cell { result ≡ spec.cell_in number round.now }
    ensures few { result.halves ≤ 2 }
{
    for meeting in round {
        if meeting.white == number {
            return white_cell(*meeting);
        }
        if is_number(number, meeting.black) {
            return black_cell(*meeting);
        }
    }
    bye_cell(Bye::Zero)
}
