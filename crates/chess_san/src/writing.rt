ghost use Rattle.std.specs.Prelude.{ℕ, ◌≡◌, ◌≢◌, ◌+◌, ◌≤◌, ◌<◌, List, ◌++◌, [], ◌∷◌, Some};
ghost use Rattle.arrayvec.specs.ArrayString.{array_string_len};
ghost use Rattle.chess_bits.specs.declared.men.Kind.TheVariants as kinds;
ghost use Rattle.chess_board.specs.declared.moves.Move.{Move};
ghost use Rattle.chess_board.specs.Position.{man_at};
ghost use Rattle.chess_board.specs.Legal.{IsLegal};
ghost use Rattle.chess_board.specs.Next as after;
ghost use Rattle.chess_notation.specs.Name.{file_letter, rank_digit, square_name, capital_of, promotion_text};
ghost use Rattle.chess_notation.specs.San as san;

use crate::origin::origin_of;
use crate::threat::{threat_of, threat_on};
use arrayvec::ArrayString;
use chess_bits::{Kind, Square};
use chess_board::{Board, Move, Wing, is_target};
use chess_notation::{Origin, Threat};

/// Room for a SAN: the longest have 7 bytes, as `Qh4xe1+` and `bxa8=Q+`.
pub type SanText = ArrayString<8>;

// Appends an ASCII character.
fn push(text: &mut SanText, character: char)
    requires ascii { character < 128 }
    requires room { array_string_len text.old < 8 }
    ensures bytes { text.new.bytes ≡ text.old.bytes ++ character ∷ [] }
    ensures len { array_string_len text.new ≡ array_string_len text.old + 1 }
{
    text.push(character);
}

// Appends the letter of a square's file.
fn push_file(text: &mut SanText, square: Square)
    requires room { array_string_len text.old < 8 }
    ensures bytes { text.new.bytes ≡ text.old.bytes ++ file_letter square ∷ [] }
    ensures len { array_string_len text.new ≡ array_string_len text.old + 1 }
{
    push(text, char::from(b'`' + square.file()));
}

// Appends the digit of a square's rank.
fn push_rank(text: &mut SanText, square: Square)
    requires room { array_string_len text.old < 8 }
    ensures bytes { text.new.bytes ≡ text.old.bytes ++ rank_digit square ∷ [] }
    ensures len { array_string_len text.new ≡ array_string_len text.old + 1 }
{
    push(text, char::from(b'0' + square.rank()));
}

// Appends a square's name.
fn push_square(text: &mut SanText, square: Square)
    requires room { array_string_len text.old + 2 ≤ 8 }
    ensures bytes { text.new.bytes ≡ text.old.bytes ++ square_name square }
    ensures len { array_string_len text.new ≡ array_string_len text.old + 2 }
{
    push_file(text, square);
    push_rank(text, square);
}

// Appends the capital letter of a kind.
fn push_kind(text: &mut SanText, kind: Kind)
    requires room { array_string_len text.old < 8 }
    ensures bytes { text.new.bytes ≡ text.old.bytes ++ capital_of kind ∷ [] }
    ensures len { array_string_len text.new ≡ array_string_len text.old + 1 }
{
    match kind {
        Kind::Pawn => push(text, 'P'),
        Kind::Knight => push(text, 'N'),
        Kind::Bishop => push(text, 'B'),
        Kind::Rook => push(text, 'R'),
        Kind::Queen => push(text, 'Q'),
        Kind::King => push(text, 'K'),
    }
}

// Appends what is told of the square left.
fn push_origin(text: &mut SanText, origin: Origin, from: Square)
    requires room { array_string_len text.old + 2 ≤ 8 }
    ensures bytes { text.new.bytes ≡ text.old.bytes ++ san.origin_text origin from }
    ensures len { array_string_len text.new ≤ array_string_len text.old + 2 }
{
    match origin {
        Origin::Nothing => {}
        Origin::File => push_file(text, from),
        Origin::Rank => push_rank(text, from),
        Origin::Square => push_square(text, from),
    }
}

// Appends `x` for a capture.
fn push_capture(text: &mut SanText, takes: bool)
    requires room { array_string_len text.old < 8 }
    ensures bytes { text.new.bytes ≡ text.old.bytes ++ san.capture_text takes }
    ensures len { array_string_len text.new ≤ array_string_len text.old + 1 }
{
    if takes {
        push(text, 'x');
    }
}

// Appends the file and `x` of a pawn's capture.
fn push_pawn_origin(text: &mut SanText, takes: bool, from: Square)
    requires room { array_string_len text.old + 2 ≤ 8 }
    ensures bytes { text.new.bytes ≡ text.old.bytes ++ san.pawn_origin takes from }
    ensures len { array_string_len text.new ≤ array_string_len text.old + 2 }
{
    if takes {
        push_file(text, from);
        push(text, 'x');
    }
}

// Appends what a pawn becomes.
fn push_promotion(text: &mut SanText, promotion: Option<Kind>)
    requires room { array_string_len text.old + 2 ≤ 8 }
    ensures bytes { text.new.bytes ≡ text.old.bytes ++ promotion_text promotion }
    ensures len { array_string_len text.new ≤ array_string_len text.old + 2 }
{
    match promotion {
        None => {}
        Some(kind) => {
            push(text, '=');
            push_kind(text, kind);
        }
    }
}

// Appends `+` for check or `#` for mate.
pub fn push_threat(text: &mut SanText, threat: Threat)
    requires room { array_string_len text.old < 8 }
    ensures bytes { text.new.bytes ≡ text.old.bytes ++ san.threat_text threat }
{
    match threat {
        Threat::Nothing => {}
        Threat::Check => push(text, '+'),
        Threat::Mate => push(text, '#'),
    }
}

// The kind of the man that makes a legal move.
fn moving_kind(board: &Board, mv: &Move) -> Kind
    requires { IsLegal board.now mv.now }
    ensures { man_at board.now.placement mv.now.from ≡ Some (board.now.side, result) }
{
    match board.piece_at(mv.from) {
        Some((_, kind)) => kind,
        None => unreachable!(),
    }
}

// Whether a move by a man of the kind takes.
fn is_capture(board: &Board, mv: &Move, kind: Kind) -> bool
    requires { man_at board.now.placement mv.now.from ≡ Some (board.now.side, kind) }
    ensures { result ≡ san.is_capture board.now mv.now }
{
    let from = mv.from;
    let to = mv.to;
    board.piece_at(to).is_some()
        || (kind == Kind::Pawn && from.file() != to.file() && is_target(board.target(), to))
}

// The wing to which the king castles.
fn castled_wing(board: &Board, mv: &Move) -> Option<Wing>
    requires { man_at board.now.placement mv.now.from ≡ Some (board.now.side, kinds.King) }
    ensures { result ≡ san.castled_wing board.now mv.now }
{
    if board.castles_to(mv, Wing::King) {
        Some(Wing::King)
    } else if board.castles_to(mv, Wing::Queen) {
        Some(Wing::Queen)
    } else {
        None
    }
}

// The text of castling.
fn castling_text(wing: Wing) -> SanText
    ensures bytes { result.bytes ≡ san.castling_text wing }
    ensures len { array_string_len result ≤ 7 }
{
    let mut text = ArrayString::new();
    match wing {
        Wing::King => text.push_str("O-O"),
        Wing::Queen => text.push_str("O-O-O"),
    }
    text
}

// The text of a pawn's move.
fn pawn_text(board: &Board, mv: &Move) -> SanText
    requires { man_at board.now.placement mv.now.from ≡ Some (board.now.side, kinds.Pawn) }
    ensures bytes { result.bytes ≡ san.pawn_text board.now mv.now }
    ensures len { array_string_len result ≤ 7 }
{
    let mut text = ArrayString::new();
    push_pawn_origin(&mut text, is_capture(board, mv, Kind::Pawn), mv.from);
    push_square(&mut text, mv.to);
    push_promotion(&mut text, mv.promotion);
    text
}

// The text of a piece's move.
fn piece_text(board: &Board, mv: &Move, kind: Kind) -> SanText
    requires piece { kind ≢ kinds.Pawn }
    requires own { man_at board.now.placement mv.now.from ≡ Some (board.now.side, kind) }
    ensures text { san.IsPieceText board.now mv.now kind result.bytes }
    ensures len { array_string_len result ≤ 7 }
{
    let mut text = ArrayString::new();
    push_kind(&mut text, kind);
    push_origin(&mut text, origin_of(board, mv, kind), mv.from);
    push_capture(&mut text, is_capture(board, mv, kind));
    push_square(&mut text, mv.to);
    text
}

// The text of a king's move.
fn king_text(board: &Board, mv: &Move) -> SanText
    requires { man_at board.now.placement mv.now.from ≡ Some (board.now.side, kinds.King) }
    ensures text { san.IsKingText board.now mv.now (san.castled_wing board.now mv.now) result.bytes }
    ensures len { array_string_len result ≤ 7 }
{
    match castled_wing(board, mv) {
        Some(wing) => castling_text(wing),
        None => piece_text(board, mv, Kind::King),
    }
}

/// A legal move's SAN without its suffix, of at most 7 bytes.
pub fn body(board: &Board, mv: &Move) -> SanText
    requires { IsLegal board.now mv.now }
    ensures text { san.IsBody board.now mv.now result.bytes }
    ensures len { array_string_len result ≤ 7 }
{
    let kind = moving_kind(board, mv);
    match kind {
        Kind::Pawn => pawn_text(board, mv),
        Kind::King => king_text(board, mv),
        Kind::Knight | Kind::Bishop | Kind::Rook | Kind::Queen => piece_text(board, mv, kind),
    }
}

/// A legal move in standard algebraic notation, in its one spelling: as `e4`, `Nbd7`, `exd6`, `a8=Q+`, `O-O`, `Qh4#`.
/// No other legal move of the position has this text. It takes no memory.
pub fn write(board: &Board, mv: Move) -> ArrayString<8>
    requires { IsLegal board.now mv }
    ensures san { san.IsSan board.now mv result.bytes }
    ensures one_text { (text : List ℕ) → san.IsSan board.now mv text → text ≡ result.bytes }
    ensures one_move { (other : Move) → san.IsSan board.now other result.bytes → other ≡ mv }
{
    let mut text = body(board, &mv);
    push_threat(&mut text, threat_of(board, mv));
    text
}

/// `write`, where the board after the move is at hand.
pub fn write_made(board: &Board, mv: Move, made: &Board) -> ArrayString<8>
    requires legal { IsLegal board.now mv }
    requires made { made.now ≡ after.next board.now mv }
    ensures { san.IsSan board.now mv result.bytes }
{
    let mut text = body(board, &mv);
    push_threat(&mut text, threat_on(made));
    text
}
