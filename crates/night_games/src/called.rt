//! Whom a tag of a PGN calls so, and what is told of this player.
ghost use Rattle.std.specs.Prelude.{◌≡◌, option_map};
ghost use Rattle.std.specs.List.{list_any};
ghost use Rattle.std.specs.Option.{option_copied};
ghost use Rattle.night_games.specs.Called as spec;
ghost use Rattle.night_games.specs.Particulars.{texts_of};

use lobby_words::Player;
use night_report::Particulars;
use player_name::Name;

// Whether the players' file has a player of this name and this full name.
fn has_names(players: &[Player], name: &str, full_name: &str) -> bool
    ensures { result ≡ list_any (spec.has_names name.now full_name.now) players.now }
{
    players.iter().any(|player| player.name.as_str() == name
        && player.full_name.as_str() == full_name)
}

// Whether a tag of this value calls so the player of this name, of whom the particulars have this full name.
fn is_called(players: &[Player], name: &str, full_name: &str, value: &str) -> bool
    ensures { result ≡ spec.is_called players.now name.now full_name.now value.now }
{
    value == name || value == full_name || has_names(players, name, value)
}

/// The row of the player of a name.
pub fn row_of<'a, 'b>(known: &'b [Particulars<'a>], name: &str) -> Option<&'b Particulars<'a>>
    ensures { option_copied result ≡ spec.row_of known.entry.now name.now }
{
    known.iter().find(|row| row.name == name)
}

// Whether a player is called so of whom no row tells. (An arbiter has another name to play by.)
fn is_untold(known: &[Particulars<'_>], value: &str, player: &Player) -> bool
    ensures { result ≡ spec.is_untold known.now value.now player.now }
{
    let name = player.name.as_str();
    !player.is_arbiter
        && (name == value || player.full_name.as_str() == value)
        && row_of(known, name).is_none()
}

// Whether there is such a player.
fn is_one_untold(players: &[Player], known: &[Particulars<'_>], value: &str) -> bool
    ensures { result ≡ list_any (spec.is_untold known.now value.now) players.now }
{
    players.iter().any(|player| is_untold(known, value, player))
}

// What two texts have alike: all, and nothing where they differ.
fn common_text<'a>(one: &'a str, other: &str) -> &'a str
    ensures { result.now ≡ spec.common_text one.entry.now other.now }
{
    if one == other { one } else { "" }
}

// What two rows tell alike.
#[tactic(auto, unfolding(crate::specs::Particulars::texts_of))]
fn common<'a>(one: &Particulars<'a>, other: &Particulars<'_>) -> Particulars<'a>
    ensures { texts_of result ≡ spec.common (texts_of one.now) (texts_of other.now) }
{
    Particulars {
        name: common_text(one.name, other.name),
        full_name: common_text(one.full_name, other.full_name),
        sex: common_text(one.sex, other.sex),
        title: common_text(one.title, other.title),
        rating: common_text(one.rating, other.rating),
        federation: common_text(one.federation, other.federation),
        fide_number: common_text(one.fide_number, other.fide_number),
        born: common_text(one.born, other.born),
        team: common_text(one.team, other.team),
        board: common_text(one.board, other.board),
    }
}

// What a row tells, and where something was told before, what it tells alike.
fn with_row<'a>(before: &Option<Particulars<'a>>, row: &Particulars<'a>) -> Particulars<'a>
    ensures { texts_of result ≡ spec.with_row (option_map texts_of before.now) (texts_of row.now) }
{
    match before {
        Some(before) => common(before, row),
        None => *row,
    }
}

// What is told where nothing says who it is: what the rows of all who are called so have alike, and nothing where
// nothing is known of one of them.
fn shared<'a>(players: &[Player], known: &[Particulars<'a>], value: &str) -> Option<Particulars<'a>>
    ensures { option_map texts_of result ≡ spec.shared players.now known.now value.now }
{
    if is_one_untold(players, known, value) {
        return None;
    }
    let mut told = None;
    for row in known {
        if is_called(players, row.name, row.full_name, value) {
            told = Some(with_row(&told, row));
        }
    }
    told
}

/// What is told of a player by a tag of this value: where it calls the board's player of this name so, what the row of
/// the name has; else what the rows of all have alike who are called so.
pub fn told_as<'a>(
    players: &[Player],
    known: &[Particulars<'a>],
    name: Option<Name>,
    value: &str,
) -> Option<Particulars<'a>>
    ensures { option_map texts_of result ≡ spec.told_as players.now known.now name value.now }
{
    let Some(name) = name else {
        return shared(players, known, value);
    };
    let Some(row) = row_of(known, name.as_str()) else {
        if is_called(players, name.as_str(), "", value) {
            return None;
        }
        return shared(players, known, value);
    };
    if is_called(players, name.as_str(), row.full_name, value) {
        return Some(*row);
    }
    shared(players, known, value)
}
