//! What the archive keeps of a game.
ghost use Rattle.std.specs.Prelude.{◌≡◌, ℕ, List, Option};
ghost use Rattle.text_parts.specs.Parts.{parts_of};
ghost use Rattle.text_pgn.specs.Pgn.{tokens_of, moves_in};
ghost use Rattle.text_pgn.specs.Archived.{archive_tokens};

/// The moves of the archive's PGN are those of the server's, in their order, whatever clocks are known.
pub fn law_of_moves()
    ensures { (pgn : List ℕ) (clocks : List (Option ℕ))
        → moves_in (archive_tokens pgn clocks) ≡ moves_in (tokens_of (parts_of 10 pgn)) }
{}
