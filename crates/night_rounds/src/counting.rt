//! Which decision of an arbiter counts for a board, and what it makes of it.
ghost use Rattle.std.specs.Prelude.{◌≡◌};
ghost use Rattle.std.specs.Option.{option_copied};
ghost use Rattle.night_rounds.specs.Counting as spec;

use crate::decisions::{Decision, Verdict, verdict_text};
use crate::rows::Against;
use night_report::{Bye, Play, Score};

// The last decision about a board.
fn last_about(decisions: &[Decision], board: u32) -> Option<&Decision>
    ensures { option_copied result ≡ spec.last_about board decisions.entry.now }
{
    let mut found = None;
    for decision in decisions {
        if decision.board == board {
            found = Some(decision);
        }
    }
    found
}

/// Whether a verdict may be that of a board: of a bye it is one of a bye, of a game none, and `as-played` of either.
pub fn may_have(against: &Against, verdict: Verdict) -> bool
    ensures { result ≡ spec.may_have against.now verdict }
{
    match against {
        Against::Bye(_) => matches!(verdict, Verdict::Bye(_) | Verdict::AsPlayed),
        Against::Game(_) => !matches!(verdict, Verdict::Bye(_)),
    }
}

/// The decision that counts for a board: the last one about it; none where that says `as-played`, as where nobody has
/// decided.
pub fn decision_about(decisions: &[Decision], board: u32) -> Option<&Decision>
    ensures { option_copied result ≡ spec.decision_about board decisions.entry.now }
{
    let decision = last_about(decisions, board)?;
    if matches!(decision.verdict, Verdict::AsPlayed) {
        None
    } else {
        Some(decision)
    }
}

/// The result that counts: the arbiter's, and else what came of the game.
pub fn result_by<'a>(decision: Option<&'a Decision>, told: &'a str) -> &'a str
    ensures { result.now ≡ spec.result_by (option_copied decision.entry) told.entry.now }
{
    match decision {
        None => told,
        Some(decision) => verdict_text(decision.verdict),
    }
}

/// The article that counts: the one that the arbiter named, and else the one by which the game ended.
pub fn article_by<'a>(decision: Option<&'a Decision>, told: &'a str) -> &'a str
    ensures { result.now ≡ spec.article_by (option_copied decision.entry) told.entry.now }
{
    match decision {
        None => told,
        Some(decision) => decision.ground.article.as_str(),
    }
}

/// Who decided; empty where nobody did.
pub fn arbiter_of(decision: Option<&Decision>) -> &str
    ensures { result.now ≡ spec.arbiter_of (option_copied decision.entry) }
{
    match decision {
        None => "",
        Some(decision) => decision.ground.arbiter.as_str(),
    }
}

/// Why it was decided so; empty where it was not.
pub fn reason_of(decision: Option<&Decision>) -> &str
    ensures { result.now ≡ spec.reason_of (option_copied decision.entry) }
{
    match decision {
        None => "",
        Some(decision) => decision.ground.reason.as_str(),
    }
}

/// What came of a board in a report, and how.
#[derive(Clone, Copy)]
pub struct Scored {
    pub score: Score,
    pub play: Play,
}

// The score of a verdict.
fn score_of(verdict: Verdict) -> Score
    ensures { result ≡ spec.score_of verdict }
{
    match verdict {
        Verdict::White | Verdict::WhiteCame | Verdict::WhiteUnrated => Score::White,
        Verdict::Black | Verdict::BlackCame | Verdict::BlackUnrated => Score::Black,
        Verdict::Draw | Verdict::DrawUnrated => Score::Draw,
        Verdict::HalfWhite => Score::HalfWhite,
        Verdict::HalfBlack => Score::HalfBlack,
        Verdict::Neither | Verdict::NobodyCame => Score::Neither,
        Verdict::Bye(_) | Verdict::AsPlayed => Score::Open,
    }
}

// How a board came to a verdict: who lost did not come, not both sides made a move, or else over the board, but where
// not both have by what came of its game.
fn play_by(verdict: Verdict, told: Play) -> Play
    ensures { result ≡ spec.play_by (spec.play_of verdict) told }
{
    match verdict {
        Verdict::WhiteCame | Verdict::BlackCame | Verdict::NobodyCame => Play::Forfeit,
        Verdict::WhiteUnrated | Verdict::BlackUnrated | Verdict::DrawUnrated => Play::Short,
        _ => match told {
            Play::Board => Play::Board,
            Play::Short | Play::Forfeit => Play::Short,
        },
    }
}

/// What a report has of a board: by the decision that counts for it, and else what came of its game.
pub fn counted(decisions: &[Decision], board: u32, told: Scored) -> Scored
    ensures { result ≡ spec.scored_by (spec.decision_about board decisions.now) told }
{
    match decision_about(decisions, board) {
        None => told,
        Some(decision) => Scored {
            score: score_of(decision.verdict),
            play: play_by(decision.verdict, told.play),
        },
    }
}

/// What a bye is: by the decision that counts for its board, and else by the pairings.
pub fn bye_counted(decisions: &[Decision], board: u32, told: Bye) -> Bye
    ensures { result ≡ spec.bye_by (spec.decision_about board decisions.now) told }
{
    match decision_about(decisions, board) {
        None => told,
        Some(decision) => match decision.verdict {
            Verdict::Bye(bye) => bye,
            _ => told,
        },
    }
}
