//! What is done about the games of a table that are over.
ghost use Rattle.std.specs.Prelude.{ℕ, ◌≡◌, ◌==◌, ◌||◌, Bool, true, false, not, is_none, is_some, OnOk, OnErr, IfOk};
ghost use Rattle.std.specs.Prelude.{IfSome};
ghost use Rattle.night_archive.specs.Files.{contains};
ghost use Rattle.night_archive.specs.Clerk.{view};
ghost use Rattle.night_archive.specs.Night.{IsTold, IsAsking, AreSettled, AreSettledBut, IsLater, Stays, BecomesAt};
ghost use Rattle.night_archive.specs.Night.{StaysBut, IsOnlyAt, IsNowhere, AreAll, AreDone, AreSettledOf};

use crate::clerk::Clerk;
use std::alloc::{AllocError, Global};

/// A server's table, an archive, and who looks at games. An implementation says what is so of which games; the calls
/// are to be proved to keep to it.
pub trait Night {
    /// A game's PGN.
    type Pgn: Drop;

    /// What goes wrong.
    type Fault: From<AllocError>;

    /// Whether the table has told that a game is over.
    ghost is_over: { Self → ℕ → Bool };

    /// Whether a game stands in the archive, and a sync has answered since it was put there.
    ghost is_safe: { Self → ℕ → Bool };

    /// Whether the table has answered that it has not a game any more.
    ghost has_left: { Self → ℕ → Bool };

    /// Whether games are dropped.
    ghost drops_games: { Self → Bool };

    /// Whether this is the PGN of a game that the table told last.
    ghost is_told: { Self → ℕ → Self.Pgn → Bool };

    /// Whether the archive has a game with the PGN that the table told last of it.
    ghost is_matched: { Self → ℕ → Bool };

    /// Whether a game stays for nobody who looks at it, by an answer since which nothing else was done.
    ghost is_unwatched: { Self → ℕ → Bool };

    /// Whether it is settled what comes of a game since it was asked for: the archive has another PGN of it, somebody
    /// looks at it for whom it stays, or a drop was sent.
    ghost is_settled: { Self → ℕ → Bool };

    /// The games of the archive, which are safe.
    fn games(&self) -> &[u32]
        ensures { (g : ℕ) → contains g result.now ≡ is_safe self.now g };

    /// Whether games are dropped.
    fn drops(&self) -> bool
        ensures { result ≡ drops_games self.now };

    /// Asks the table for the PGN of a game that is over; `None` where it has not the game any more. What stood in the
    /// archive before is not known to be this PGN.
    fn ask(&mut self, game: u32) -> Result<Option<Self::Pgn>, Self::Fault>
        requires over { is_over self.now game ≡ true }
        ensures over { Stays (is_over self.old) (is_over self.new) }
        ensures safe { Stays (is_safe self.old) (is_safe self.new) }
        ensures left { IfOk result (λ pgn. is_none pgn ≡ true → has_left self.new game ≡ true) }
        ensures later { IsLater (has_left self.old) (has_left self.new) }
        ensures drops { drops_games self.new ≡ drops_games self.old }
        ensures told { IfOk result (λ pgn. IfSome pgn (λ one. (g : ℕ) → is_told self.new g one ≡ (game == g))) }
        ensures matched { BecomesAt game false (is_matched self.old) (is_matched self.new) }
        ensures unwatched { IsNowhere (is_unwatched self.new) }
        ensures settled { BecomesAt game false (is_settled self.old) (is_settled self.new) };

    /// Whether the archive has a game with just this PGN, which the table told last.
    fn is_same(&mut self, game: u32, pgn: &Self::Pgn) -> Result<bool, Self::Fault>
        requires told { is_told self.now game pgn.now ≡ true }
        ensures over { Stays (is_over self.old) (is_over self.new) }
        ensures safe { Stays (is_safe self.old) (is_safe self.new) }
        ensures later { IsLater (has_left self.old) (has_left self.new) }
        ensures drops { drops_games self.new ≡ drops_games self.old }
        ensures told { (g : ℕ) (one : Self.Pgn) → is_told self.new g one ≡ is_told self.old g one }
        ensures matched { IfOk result (λ is_same. BecomesAt game is_same (is_matched self.old) (is_matched self.new)) }
        ensures unmatched { OnErr result (BecomesAt game false (is_matched self.old) (is_matched self.new)) }
        ensures unwatched { IsNowhere (is_unwatched self.new) }
        ensures settled { IfOk result (λ is_same. BecomesAt game (not is_same) (is_settled self.old)
            (is_settled self.new)) };

    /// Puts the PGN of a game that is over and not there, which the table told last, into the archive, and syncs. `Ok`
    /// says that the sync has answered.
    fn put(&mut self, game: u32, pgn: Self::Pgn) -> Result<(), Self::Fault>
        requires over { is_over self.now game ≡ true }
        requires new { is_safe self.now game ≡ false }
        requires told { is_told self.now game pgn ≡ true }
        ensures over { Stays (is_over self.old) (is_over self.new) }
        ensures safe { OnOk result (BecomesAt game true (is_safe self.old) (is_safe self.new)) }
        ensures later { IsLater (has_left self.old) (has_left self.new) }
        ensures drops { drops_games self.new ≡ drops_games self.old }
        ensures matched { OnOk result (BecomesAt game true (is_matched self.old) (is_matched self.new)) }
        ensures unmatched { OnErr result (BecomesAt game false (is_matched self.old) (is_matched self.new)) }
        ensures unwatched { IsNowhere (is_unwatched self.new) }
        ensures settled { OnOk result (BecomesAt game false (is_settled self.old) (is_settled self.new)) };

    /// Whether a game stays now for nobody who looks at it. Where that cannot be told, games may not be dropped from
    /// now on.
    fn is_left(&mut self, game: u32) -> Result<bool, Self::Fault>
        ensures over { Stays (is_over self.old) (is_over self.new) }
        ensures safe { Stays (is_safe self.old) (is_safe self.new) }
        ensures later { IsLater (has_left self.old) (has_left self.new) }
        ensures fewer { drops_games self.new ≡ true → drops_games self.old ≡ true }
        ensures drops { IfOk result (λ is_left. is_left ≡ true → drops_games self.new ≡ drops_games self.old) }
        ensures matched { Stays (is_matched self.old) (is_matched self.new) }
        ensures unwatched { IfOk result (λ is_left. IsOnlyAt game is_left (is_unwatched self.new)) }
        ensures unknown { OnErr result (IsNowhere (is_unwatched self.new)) }
        ensures settled { IfOk result (λ is_left. BecomesAt game (not is_left) (is_settled self.old)
            (is_settled self.new)) };

    /// Sends a drop for a game that is over, which has to be safe: where games are dropped, the archive has just the
    /// PGN that the table told last of it, and it stays for nobody who looks at it, as was asked last. It answers
    /// whether the table took it.
    fn drop_game(&mut self, game: u32) -> Result<bool, Self::Fault>
        requires over { is_over self.now game ≡ true }
        requires safe { is_safe self.now game ≡ true }
        requires drops { drops_games self.now ≡ true }
        requires matched { is_matched self.now game ≡ true }
        requires unwatched { is_unwatched self.now game ≡ true }
        ensures over { Stays (is_over self.old) (is_over self.new) }
        ensures safe { Stays (is_safe self.old) (is_safe self.new) }
        ensures later { IsLater (has_left self.old) (has_left self.new) }
        ensures drops { drops_games self.new ≡ drops_games self.old }
        ensures matched { Stays (is_matched self.old) (is_matched self.new) }
        ensures unwatched { IsNowhere (is_unwatched self.new) }
        ensures settled { OnOk result (BecomesAt game true (is_settled self.old) (is_settled self.new)) };
}

// Asks for the PGN of a game, and puts it into the archive where the clerk says so. It answers whether the table has
// the game still.
fn take_in<N: Night>(night: &mut N, clerk: &mut Clerk, game: u32) -> Result<bool, N::Fault>
    requires over { N.is_over night.now game ≡ true }
    requires asking { IsAsking game (view clerk.now) (N.is_safe night.now) (N.is_matched night.now) }
    requires settled { AreSettledBut game (view clerk.now) (N.drops_games night.now) (N.is_settled night.now) }
    ensures over { OnOk result (Stays (N.is_over night.old) (N.is_over night.new)) }
    ensures told { OnOk result (IsTold (view clerk.new) (N.is_safe night.new) (N.is_matched night.new)) }
    ensures there { IfOk result (λ is_there. is_there ≡ true → N.is_safe night.new game ≡ true) }
    ensures left { IfOk result (λ is_there. is_there ≡ false → N.has_left night.new game ≡ true) }
    ensures safe { OnOk result (IsLater (N.is_safe night.old) (N.is_safe night.new)) }
    ensures later { OnOk result (IsLater (N.has_left night.old) (N.has_left night.new)) }
    ensures drops { OnOk result (N.drops_games night.new ≡ N.drops_games night.old) }
    ensures settled { OnOk result (AreSettled (view clerk.new) (N.drops_games night.new) (N.is_settled night.new)) }
    ensures seen { IfOk result (λ is_there. is_there ≡ true → is_some ((view clerk.new).stage game) ≡ true) }
    ensures others { OnOk result (StaysBut game (N.is_settled night.old) (N.is_settled night.new)) }
{
    let Some(pgn) = night.ask(game)? else {
        clerk.refused(game);
        return Ok(false);
    };
    let is_same = night.is_same(game, &pgn)?;
    if clerk.came(game, is_same)? {
        night.put(game, pgn)?;
        clerk.synced();
    }
    Ok(true)
}

// Drops a game where the clerk says so, and nobody looks at it. (Who looks is asked last, so that it is true still.)
fn let_go<N: Night>(night: &mut N, clerk: &mut Clerk, game: u32) -> Result<(), N::Fault>
    requires over { N.is_over night.now game ≡ true }
    requires drops { N.drops_games night.now ≡ true }
    requires told { IsTold (view clerk.now) (N.is_safe night.now) (N.is_matched night.now) }
    requires settled { AreSettled (view clerk.now) (N.drops_games night.now) (N.is_settled night.now) }
    requires seen { is_some ((view clerk.now).stage game) ≡ true }
    ensures over { OnOk result (Stays (N.is_over night.old) (N.is_over night.new)) }
    ensures told { OnOk result (IsTold (view clerk.new) (N.is_safe night.new) (N.is_matched night.new)) }
    ensures safe { OnOk result (Stays (N.is_safe night.old) (N.is_safe night.new)) }
    ensures later { OnOk result (IsLater (N.has_left night.old) (N.has_left night.new)) }
    ensures settled { OnOk result (AreSettled (view clerk.new) (N.drops_games night.new) (N.is_settled night.new)) }
    ensures here { OnOk result (N.is_settled night.new game ≡ true) }
    ensures others { OnOk result (StaysBut game (N.is_settled night.old) (N.is_settled night.new)) }
{
    if clerk.may_go(game) && night.is_left(game)? && clerk.left(game)? {
        if !night.drop_game(game)? {
            clerk.refused(game);
        }
    }
    Ok(())
}

// Does what the clerk decides about a game of the table that is over, and that may be dropped where games are.
fn look_at<N: Night>(
    night: &mut N,
    clerk: &mut Clerk,
    game: u32,
    droppable: bool,
) -> Result<(), N::Fault>
    requires over { N.is_over night.now game ≡ true }
    requires drops { droppable ≡ N.drops_games night.now }
    requires told { IsTold (view clerk.now) (N.is_safe night.now) (N.is_matched night.now) }
    requires settled { AreSettled (view clerk.now) (N.drops_games night.now) (N.is_settled night.now) }
    ensures over { OnOk result (Stays (N.is_over night.old) (N.is_over night.new)) }
    ensures told { OnOk result (IsTold (view clerk.new) (N.is_safe night.new) (N.is_matched night.new)) }
    ensures done { OnOk result ((N.is_safe night.new game || N.has_left night.new game) ≡ true) }
    ensures safe { OnOk result (IsLater (N.is_safe night.old) (N.is_safe night.new)) }
    ensures later { OnOk result (IsLater (N.has_left night.old) (N.has_left night.new)) }
    ensures fewer { OnOk result (N.drops_games night.new ≡ true → N.drops_games night.old ≡ true) }
    ensures settled { OnOk result (AreSettled (view clerk.new) (N.drops_games night.new) (N.is_settled night.new)) }
    ensures here { OnOk result (N.drops_games night.new ≡ true
        → (N.is_settled night.new game || N.has_left night.new game) ≡ true) }
    ensures others { OnOk result (StaysBut game (N.is_settled night.old) (N.is_settled night.new)) }
{
    if clerk.over(game, droppable)? && !take_in(night, clerk, game)? {
        return Ok(());
    }
    if droppable {
        let_go(night, clerk, game)?;
    }
    Ok(())
}

// A clerk who knows the archive of a night, all of which is safe.
fn clerk_of<N: Night>(night: &N, alloc: Global) -> Result<Clerk, AllocError>
    ensures told { IfOk result (λ clerk. IsTold (view clerk) (N.is_safe night.now) (N.is_matched night.now)) }
    ensures settled { IfOk result (λ clerk. AreSettled (view clerk) (N.drops_games night.now)
        (N.is_settled night.now)) }
{
    let mut clerk = Clerk::new(alloc, night.games())?;
    clerk.synced();
    Ok(clerk)
}

/// Looks once at the games of a table that are over, and does what a clerk decides: the PGN of each is asked for and
/// put into the archive where it is not there; and while games are dropped it is compared with what stands there, and a
/// drop is sent where nobody looks at the game. At `Ok` each of the games is safe, or has left the table. When a drop
/// may be sent, and what may be put, is what `drop_game` and `put` require.
pub fn look<N: Night>(night: &mut N, alloc: Global, over: &[u32]) -> Result<(), N::Fault>
    requires { AreAll (N.is_over night.now) over.now }
    ensures done { OnOk result (AreDone (N.is_safe night.new) (N.has_left night.new) over.now) }
    ensures settled { OnOk result (AreSettledOf (N.drops_games night.new) (N.is_settled night.new)
        (N.has_left night.new) over.now) }
{
    let mut clerk = clerk_of(night, alloc)?;
    for game in over {
        let droppable = night.drops();
        look_at(night, &mut clerk, *game, droppable)?;
    }
    Ok(())
}
