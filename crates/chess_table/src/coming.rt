ghost use Rattle.std.specs.Prelude.{◌≡◌, ◌≤◌, ◌↔◌, IsTrue, is_some};
ghost use Rattle.std.specs.Option.{ForSome};
ghost use Rattle.chess_board.specs.Position.{IsValid};
ghost use Rattle.chess_board.specs.Legal.{IsLegal};
ghost use Rattle.player_name.specs.Name.{IsName};
ghost use Rattle.chess_entry.specs.State.{position_of};
ghost use Rattle.chess_entry.specs.Verdict.{claim_asked, claim_verdict};
ghost use Rattle.chess_entry.specs.Table.{IsEnteredOn};
ghost use Rattle.chess_table.specs.Witness.{StatesLegal, NamesPlayer, is_fallen, Enters, opening_verdict};
ghost use Rattle.chess_table.specs.Witness.{witness_verdict};

use crate::judging::{
    Claimed, accept_verdict, claim_verdict, decline_verdict, drop_verdict, flag_verdict,
    join_verdict, move_verdict, offer_verdict, open_verdict, resign_verdict,
};
use crate::table::Table;
use chess_entry::{Claim, Entry, Event, GREATEST_MOMENT, Opening, Refusal, Verdict};
use chess_game::{Game, Times};
use chess_moves::legal;

// Whether the move that a claim states is legal, if it states one.
fn claims_legal(game: &Game, claim: &Claim) -> bool
    ensures { IsTrue result ↔ ForSome claim.now.mv (IsLegal (position_of game.now)) }
{
    match claim.mv {
        None => true,
        Some(mv) => legal(game.board(), mv.get()),
    }
}

// Whether the move that an event states is legal, if it states one.
fn states_legal(game: &Game, event: &Event) -> bool
    ensures legal { IsTrue result ↔ StatesLegal game.now event.now }
    ensures named { NamesPlayer event.now }
{
    match event {
        Event::Move(made) => legal(game.board(), made.mv.get()),
        Event::Claim(claim) => claims_legal(game, claim),
        Event::Join(name) => {
            let _named = name.as_str();
            true
        }
        _ => true,
    }
}

// The verdict on the claim that an entry would have become of, by whom it says.
fn entry_claim(table: &Table, game: &Game, at: u64, claim: &Claim) -> Verdict
    requires { game.now.moment ≤ at }
    ensures { result ≡ claim_verdict table.now at
        (claim_asked claim.now.ply claim.now.fifty (is_some claim.now.mv) claim.now.mv) game.now claim.now.by }
{
    let claimed = Claimed {
        ply: claim.ply,
        fifty: claim.fifty,
        states: claim.mv.is_some(),
        mv: claim.mv,
    };
    claim_verdict(table, game, claim.by, at, &claimed)
}

// The verdict on the act that an entry of a game would have become of: by whom the entry says, or by who is on move.
fn witness_verdict(table: &Table, game: &Game, at: u64, event: &Event) -> Verdict
    requires { game.now.moment ≤ at }
    ensures { result ≡ witness_verdict table.now at game.now event.now }
{
    match event {
        Event::Open(_) => Verdict::Refuse(Refusal::Taken),
        Event::Join(name) => join_verdict(at, name, game),
        Event::Move(made) => {
            let side = game.board().side();
            move_verdict(table, game, side, at, made.ply, &Some(made.mv))
        }
        Event::Offer(by) => offer_verdict(game, *by, at),
        Event::Accept(by) => accept_verdict(game, *by, at),
        Event::Decline(by) => decline_verdict(game, *by, at),
        Event::Resign(by) => resign_verdict(game, *by, at),
        Event::Claim(claim) => entry_claim(table, game, at, claim),
        Event::Fallen => flag_verdict(game, at),
        Event::Drop => drop_verdict(game, at),
    }
}

// The verdict on the act that an opening would have become of.
fn opening_verdict(table: &Table, at: u64, opening: &Opening) -> Verdict
    ensures verdict { result ≡ opening_verdict table.now at opening.now }
    ensures named { IsName opening.now.name }
    ensures valid { IsValid opening.now.start }
{
    let _named = opening.name.as_str();
    let _valid = opening.start.rights();
    let times = Times {
        initial: opening.initial,
        increment: opening.increment,
        period: opening.period,
    };
    let start = Some(opening.start);
    open_verdict(table, at, opening.name, opening.colour, times, &start)
}

// Whether an entry is that of a fallen flag.
fn is_fallen(event: &Event) -> bool
    ensures { result ≡ is_fallen event.now }
{
    matches!(event, Event::Fallen)
}

// Whether a verdict is an entry of this one's game, and that of a fallen flag just where this one is.
fn enters(verdict: &Verdict, entry: &Entry) -> bool
    ensures { IsTrue result ↔ Enters verdict.now entry.now }
{
    match verdict {
        Verdict::Enter(made) => {
            made.game.get() == entry.game.get() && is_fallen(&made.event) == is_fallen(&entry.event)
        }
        _ => false,
    }
}

impl Table {
    /// Whether an entry may come on this table: whether it is the verdict here on some command by a player with a name.
    /// The entry alone is looked at; it takes no memory.
    pub fn would_enter(&self, entry: &Entry) -> bool
        ensures { IsTrue result ↔ IsEnteredOn self.now entry.now }
    {
        // With them, the table's bounds are known.
        let _limits = self.limits();
        if entry.moment < self.moment() {
            return false;
        }
        if GREATEST_MOMENT < entry.moment {
            return false;
        }
        if let Event::Open(opening) = &entry.event {
            let verdict = opening_verdict(self, entry.moment, opening);
            return enters(&verdict, entry);
        }
        let Some(game) = self.find(entry.game.get()) else {
            return false;
        };
        if !states_legal(game, &entry.event) {
            return false;
        }
        let verdict = witness_verdict(self, game, entry.moment, &entry.event);
        enters(&verdict, entry)
    }
}
