//! The standings and the crosstable as rows of CSV.
use crate::breaks::Criterion;
use crate::places::{Standings, value_at};
use night_report::cells::cell_of;
use night_report::{Cell, Meeting, board_points, push_header, push_row};
use std::alloc::{AllocError, Global};

/// The tie-break of a word, as it heads its column; board points are one of teams alone.
pub fn criterion_of(word: &str, of_teams: bool) -> Option<Criterion> {
    match word {
        "BP" if of_teams => Some(Criterion::BoardPoints),
        "DE" => Some(Criterion::Direct),
        "BHC1" => Some(Criterion::BuchholzCut),
        "BH" => Some(Criterion::Buchholz),
        "SB" => Some(Criterion::SonnebornBerger),
        "WIN" => Some(Criterion::Wins),
        _ => None,
    }
}

/// The word of a tie-break.
pub fn criterion_word(criterion: Criterion) -> &'static str {
    match criterion {
        Criterion::BoardPoints => "BP",
        Criterion::Direct => "DE",
        Criterion::BuchholzCut => "BHC1",
        Criterion::Buchholz => "BH",
        Criterion::SonnebornBerger => "SB",
        Criterion::Wins => "WIN",
    }
}

/// Half points as points, with one digit behind the point.
pub fn points_text(alloc: Global, halves: u64) -> Result<String, AllocError> {
    let whole = halves / 2;
    let part = if halves % 2 == 0 { "0" } else { "5" };
    format!(in alloc; "{whole}.{part}")
}

// Quarters as points, with two digits behind the point.
fn quarters_text(alloc: Global, quarters: u64) -> Result<String, AllocError> {
    let whole = quarters / 4;
    let part = match quarters % 4 {
        0 => "00",
        1 => "25",
        2 => "50",
        _ => "75",
    };
    format!(in alloc; "{whole}.{part}")
}

// What a player has by a tie-break, as it is told.
fn value_text(alloc: Global, criterion: Criterion, value: u64) -> Result<String, AllocError> {
    match criterion {
        Criterion::SonnebornBerger => quarters_text(alloc, value),
        Criterion::Wins => format!(in alloc; "{value}"),
        Criterion::BoardPoints | Criterion::Direct | Criterion::BuchholzCut | Criterion::Buchholz =>
            points_text(alloc, value),
    }
}

// Who stands at a place, in the order of the numbers.
fn push_placed(order: &mut Vec<usize>, places: &[usize], place: usize) -> Result<(), AllocError> {
    for (at, other) in places.iter().enumerate() {
        if *other == place {
            order.push(at)?;
        }
    }
    Ok(())
}

/// The players by their places, and of those who are tied by their numbers.
pub fn order_of(alloc: Global, places: &[usize]) -> Result<Vec<usize>, AllocError> {
    let mut order = Vec::new(alloc);
    for place in 0..places.len() {
        push_placed(&mut order, places, place)?;
    }
    Ok(order)
}

/// The name of a player; empty where there is none.
pub fn name_at<'a>(names: &[&'a str], at: usize) -> &'a str {
    match names.get(at) {
        Some(name) => *name,
        None => "",
    }
}

// The line of the player of this number, from 1 on.
fn line_of(order: &[usize], number: u32) -> usize {
    let mut line: usize = 1;
    for at in order {
        if (*at as u64).saturating_add(1) == u64::from(number) {
            return line;
        }
        line = line.saturating_add(1);
    }
    0
}

// The names of the columns of the crosstable.
fn push_rounds(rows: &mut Vec<u8>, alloc: Global, count: usize) -> Result<(), AllocError> {
    let mut cells = Vec::new(alloc);
    cells.push(Cell::of_text(alloc, "line")?)?;
    cells.push(Cell::of_text(alloc, "name")?)?;
    for at in 0..count {
        cells.push(Cell::of_number(alloc, (at as u64).saturating_add(1))?)?;
    }
    cells.push(Cell::of_text(alloc, "points")?)?;
    push_row(rows, alloc, cells.as_slice())
}

/// The boards of matches: the team of each player, and the boards of each round.
#[derive(Clone, Copy)]
pub struct Boards<'a> {
    pub sides: &'a [u32],
    pub rounds: &'a [Vec<Meeting>],
}

impl Boards<'_> {
    /// A team's board points in the round before which so many are, as points.
    pub fn points_text(self, alloc: Global, at: usize, team: u32) -> Result<String, AllocError> {
        let halves = match self.rounds.get(at) {
            Some(round) if round.len() <= 9_999 => board_points(self.sides, team, round.as_slice()),
            _ => 0,
        };
        points_text(alloc, u64::from(halves))
    }
}

/// What a table is of: the names of players, or of teams, in the order of their numbers, and the tie-breaks; of teams
/// their boards too.
#[derive(Clone, Copy)]
pub struct Table<'a, 'b> {
    pub names: &'a [&'a str],
    pub criteria: &'b [Criterion],
    pub standings: &'b Standings,
    pub boards: Option<Boards<'b>>,
}

impl Table<'_, '_> {
    /// A player's points, or a team's match points, as they are told.
    pub fn points(self, alloc: Global, at: usize) -> Result<String, AllocError> {
        let points = value_at(self.standings.points.as_slice(), at);
        match self.boards {
            None => points_text(alloc, points),
            Some(_) => format!(in alloc; "{points}"),
        }
    }

    /// What a player, or a team, has by a tie-break, as it is told.
    pub fn value(
        self,
        alloc: Global,
        criterion: Criterion,
        value: u64,
    ) -> Result<String, AllocError> {
        match (self.boards, criterion) {
            (None, _) | (Some(_), Criterion::BoardPoints) => value_text(alloc, criterion, value),
            (Some(_), _) => format!(in alloc; "{value}"),
        }
    }

    // A round as it stands in the crosstable, by the meetings of the round before which so many are.
    fn met_text(
        self,
        alloc: Global,
        order: &[usize],
        at: usize,
        place: usize,
        round: &[Meeting],
    ) -> Result<String, AllocError> {
        let number = u32::try_from(at).map_or(0, |at| at.saturating_add(1));
        let cell = cell_of(number, round);
        let (colour, sign) = (char::from(cell.colour), char::from(cell.sign));
        let text = if cell.opponent == 0 {
            format!(in alloc; "{sign}")?
        } else {
            let line = line_of(order, cell.opponent);
            format!(in alloc; "{line}{colour}{sign}")?
        };
        match self.boards {
            None => Ok(text),
            Some(boards) => {
                let points = boards.points_text(alloc, place, number)?;
                format!(in alloc; "{text}:{points}")
            }
        }
    }

    /// A player's place, from 1 on.
    pub fn place(self, at: usize) -> u64 {
        match self.standings.places.get(at) {
            Some(place) => (*place as u64).saturating_add(1),
            None => 0,
        }
    }

    // The row of a player in the standings.
    fn push_player(self, rows: &mut Vec<u8>, alloc: Global, at: usize) -> Result<(), AllocError> {
        let mut cells = Vec::new(alloc);
        cells.push(Cell::of_number(alloc, self.place(at))?)?;
        cells.push(Cell::of_number(alloc, (at as u64).saturating_add(1))?)?;
        cells.push(Cell::of_text(alloc, name_at(self.names, at))?)?;
        cells.push(Cell::of_text(alloc, self.points(alloc, at)?.as_str())?)?;
        for (criterion, column) in self.criteria.iter().zip(self.standings.columns.as_slice()) {
            let value = self.value(alloc, *criterion, value_at(column.as_slice(), at))?;
            cells.push(Cell::of_text(alloc, value.as_str())?)?;
        }
        push_row(rows, alloc, cells.as_slice())
    }

    // The names of the columns.
    fn push_names(self, rows: &mut Vec<u8>, alloc: Global) -> Result<(), AllocError> {
        let mut names = Vec::from_slice(alloc, &["place", "number", "name", "points"])?;
        for criterion in self.criteria {
            names.push(criterion_word(*criterion))?;
        }
        push_header(rows, alloc, names.as_slice())
    }

    /// The standings as CSV: `place,number,name,points` and a column for each tie-break, a row for each player by the
    /// places.
    pub fn standings_csv(self, alloc: Global) -> Result<Vec<u8>, AllocError> {
        let mut rows = Vec::new(alloc);
        self.push_names(&mut rows, alloc)?;
        let order = order_of(alloc, self.standings.places.as_slice())?;
        for at in order.as_slice() {
            self.push_player(&mut rows, alloc, *at)?;
        }
        Ok(rows)
    }

    // The row of a player in the crosstable, which has this line.
    fn push_line(
        self,
        rows: &mut Vec<u8>,
        alloc: Global,
        rounds: &[Vec<Meeting>],
        order: &[usize],
        line: usize,
    ) -> Result<(), AllocError> {
        let at = order.get(line).map_or(0, |at| *at);
        let mut cells = Vec::new(alloc);
        cells.push(Cell::of_number(alloc, (line as u64).saturating_add(1))?)?;
        cells.push(Cell::of_text(alloc, name_at(self.names, at))?)?;
        for (place, round) in rounds.iter().enumerate() {
            let text = self.met_text(alloc, order, at, place, round.as_slice())?;
            cells.push(Cell::of_text(alloc, text.as_str())?)?;
        }
        cells.push(Cell::of_text(alloc, self.points(alloc, at)?.as_str())?)?;
        push_row(rows, alloc, cells.as_slice())
    }

    /// The crosstable as CSV: `line,name`, a column for each round and `points`, a row for each player by the places.
    /// A round is the opponent's line, `w` or `b`, and the sign of the result, as `3w1`; of a bye its sign; and of a
    /// team the board points behind them, as `3w1:2.5`.
    pub fn crosstable_csv(
        self,
        alloc: Global,
        rounds: &[Vec<Meeting>],
    ) -> Result<Vec<u8>, AllocError> {
        let mut rows = Vec::new(alloc);
        push_rounds(&mut rows, alloc, rounds.len())?;
        let order = order_of(alloc, self.standings.places.as_slice())?;
        for line in 0..order.len() {
            self.push_line(&mut rows, alloc, rounds, order.as_slice(), line)?;
        }
        Ok(rows)
    }
}
