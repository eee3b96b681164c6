//! What the options of `lobby` say of a player's games.
ghost use Rattle.std.specs.Prelude.{codes};
ghost use Rattle.clap.specs.Words.{found_of};
ghost use Rattle.club_words.specs.Options.{SaysNumber, MaySayNumber};

use clap::ArgMatches;
use lobby_desk::Limits;

// The number of an option, and this one where the option is not given.
fn number_or(values: &ArgMatches<'_>, option: &str, default: u32) -> u32
    ensures { SaysNumber (found_of values.now) option.now default result }
{
    values.get_one(option).unwrap_or(default)
}

// The number of an option, where it is given.
fn number_if(values: &ArgMatches<'_>, option: &str) -> Option<u32>
    ensures { MaySayNumber (found_of values.now) option.now result }
{
    values.get_one(option)
}

/// The limits of a lobby, by the options of `lobby`.
pub fn limits_of(values: &ArgMatches<'_>) -> Limits
    ensures waiting { SaysNumber (found_of values.now) (codes "waiting-most") 4 result.waiting }
    ensures playing { SaysNumber (found_of values.now) (codes "playing-most") 8 result.playing }
    ensures over { SaysNumber (found_of values.now) (codes "over-most") 32 result.over }
    ensures places { MaySayNumber (found_of values.now) (codes "games") result.places }
{
    Limits {
        waiting: number_or(values, "waiting-most", 4) as usize,
        playing: number_or(values, "playing-most", 8) as usize,
        over: number_or(values, "over-most", 32) as usize,
        places: number_if(values, "games"),
    }
}
