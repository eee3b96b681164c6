//! A game in memory of its own.
ghost use Rattle.std.specs.Prelude.{◌≡◌, IfOk};
ghost use Rattle.std.specs.Borrow.{Lends, sem};
ghost use Rattle.chess_game.specs.contracts.games.Game.{the_row as game_row};

use chess_game::Game;
use std::alloc::{AllocError, Global};
use std::marker::Model;

/// A game in memory of its own: where games are moved up behind one that is dropped, each is a pointer.
#[derive(Drop)]
pub(crate) struct BoxedGame {
    game: Box<Game>,
}

impl Model for BoxedGame {
    ghost use Rattle.chess_entry.specs.State.{GameState};

    ghost Value = { GameState };

    ghost view = { λ boxed. boxed.game.value };
}

impl BoxedGame {
    ghost use Rattle.chess_table.specs.contracts.boxed.BoxedGame.{the_row};

    pub(crate) fn new(alloc: Global, game: Game) -> Result<BoxedGame, AllocError>
        ensures { IfOk result (λ boxed. boxed ≡ game) }
    {
        let game = Box::new(alloc, game)?;
        Ok(BoxedGame { game })
    }

    pub(crate) fn game(&self) -> &Game
        ensures { result.now ≡ self.now }
    {
        self.game.as_ref()
    }

    pub(crate) fn game_mut(&mut self) -> &mut Game
        ensures* writes_back { sem 𝓛 (Lends the_row game_row self.entry result (λ game. game)) }
        ensures value { result.now ≡ self.old }
    {
        self.game.as_mut()
    }
}
