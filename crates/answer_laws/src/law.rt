//! What is promised of the server's answers and of their readers together, and of the lobby's desk and a session.
ghost use Rattle.std.specs.Prelude.{ℕ, Bool, ◌≡◌, ◌<◌, ◌^◌, ◌++◌, ◌∷◌, [], List, Some, codes};
ghost use Rattle.rec_codec.specs.declared.record.Event.{Event};
ghost use Rattle.chess_entry.specs.State.{GameState};
ghost use Rattle.chess_entry.specs.Bounds.{IsGame};
ghost use Rattle.chess_entry.specs.declared.refusals.Refusal.{Refusal};
ghost use Rattle.chess_answer.specs.Fields.{ok_text};
ghost use Rattle.chess_answer.specs.Acts.{IsGameLine};
ghost use Rattle.chess_answer.specs.Refusals.{refusal_text};
ghost use Rattle.chess_answer.specs.Reads.{show_text, list_row, list_line_text, line_count, IsPgnReply};
ghost use Rattle.server_answers.specs.Entered.{Opened, entered_in};
ghost use Rattle.server_answers.specs.Heads.{list_in, pgn_in};
ghost use Rattle.server_answers.specs.Refusals.{refusal_in};
ghost use Rattle.server_answers.specs.Games.{shown_in, row_in};
ghost use Rattle.answer_laws.specs.Told.{shown_as, row_as};
ghost use Rattle.answer_laws.specs.Refusals.{refusal_as, IsTold};
ghost use Rattle.answer_laws.specs.Acts.{IsReadAs};
ghost use Rattle.lobby_words.specs.declared.players.Player.{Player};
ghost use Rattle.lobby_desk.specs.Who.{View};
ghost use Rattle.lobby_players.specs.Halts.{Halted};
ghost use Rattle.lobby_desk.specs.History.{Step, IsRun};
ghost use Rattle.answer_laws.specs.Names.{AllEntered};

/// The answer to `show` of every game that the server keeps is read to the game's number, players, moves made, side on
/// move, what both sides have left, offers and ending.
pub fn law_of_shown_read()
    ensures { (game : GameState) (at : ℕ) → IsGame 20000 game → shown_in (show_text game at) ≡ Some (shown_as game at) }
{}

/// The row of every such game in the answer to `list`, without the line feed that ends it, is read to the game's
/// number, players, moves made and result.
pub fn law_of_rows_read()
    ensures { (game : GameState) (line : List ℕ) → IsGame 20000 game → list_row game ≡ line ++ (10 ∷ []) →
        row_in line ≡ Some (row_as game) }
{}

/// Each refusal of the server is read as that refusal.
pub fn law_of_refusals_read()
    ensures { (refusal : Refusal) → IsTold refusal → refusal_in (refusal_text refusal) ≡ Some (refusal_as refusal) }
{}

/// The answer to each act that becomes an entry of a game that the server keeps is read to the game and to what came to
/// pass in it, a move with its number, its SAN and its end; and that to an opening to the new game.
pub fn law_of_acts_read()
    ensures acts { (game : GameState) (e : Event) (text : List ℕ) → IsGame 20000 game → IsGameLine game e text →
        IsReadAs game e text }
    ensures openings { (number : ℕ) → number < 2 ^ 32 →
        entered_in (ok_text (codes "open") number []) ≡ Some (record { game = number; done = Opened }) }
{}

/// The first line of each answer to `list` is read to the number of rows, and that of each answer to `pgn` to the game
/// and the number of lines of its PGN.
pub fn law_of_heads_read()
    ensures list { (count : ℕ) → count < 2 ^ 32 → list_in (list_line_text count) ≡ Some count }
    ensures pgn { (game : GameState) (line body : List ℕ) → IsGame 20000 game → IsPgnReply game line body →
        line_count body < 2 ^ 32 → pgn_in line ≡ Some (record { game = game.number; lines = line_count body }) }
{}

/// Whatever the lobby's desk has come, said and answered: where the server's session took each line that it has
/// answered there as `chess_hub` has it, and gave the answers that the desk has, an act whose answer counts is one that
/// the session asked of the table under the name of the player whose token its connection had shown; of an arbiter's
/// `as NAME LINE` under NAME; of a `drop` under the name of who waited in the game; and of a pairing its opening under
/// White's name, and its join under Black's.
pub fn law_of_entered_names()
    ensures { (players : List Player) (at_first : Halted) (steps : List Step) (now : View) →
        IsRun players at_first steps now → AllEntered players steps }
{}
