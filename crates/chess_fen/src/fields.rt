ghost use Rattle.std.specs.Prelude.{◌≡◌, ◌≢◌, ℕ, [], ◌∷◌, ◌++◌, List, IfOk, IfErr, Option};
ghost use Rattle.chess_bits.specs.declared.men.Colour.{Colour};
ghost use Rattle.chess_bits.specs.Square.{Square};
ghost use Rattle.chess_board.specs.Position.{Rights};
ghost use Rattle.chess_board.specs.RightsOf.{rights_of};
ghost use Rattle.chess_fen.specs.declared.fields.FenError.TheVariants as faults;
ghost use Rattle.chess_fen.specs.Reading.{IsFenField, FenFields, fields_of, HasFields, TellsSide, TellsRights};
ghost use Rattle.chess_fen.specs.Reading.{TellsTarget, TellsNumber};

use crate::fen::push_rights;
use arrayvec::ArrayString;
use chess_bits::{Colour, Square};
use chess_board::{BadBoard, CastlingRights};
use chess_notation::square_named;
use itoa::Buffer;
use thiserror::Error;

/// Why a text is no FEN of a valid position: the first fault, in this order.
#[derive(Clone, Copy, Debug, Error)]
pub enum FenError {
    /// It is not six fields that are not empty, with one space between.
    #[error("a FEN is six fields with one space between")]
    Shape,
    /// The men are not eight ranks of eight squares in their one spelling.
    #[error("the men are not eight ranks of eight squares in their one spelling")]
    Placement,
    /// The side to move is neither `w` nor `b`.
    #[error("the side to move is neither `w` nor `b`")]
    Side,
    /// The castling rights are neither `-` nor letters of `KQkq` in that order.
    #[error("the castling rights are neither `-` nor letters of `KQkq` in that order")]
    Castling,
    /// The target is neither `-` nor a square's name.
    #[error("the en passant target is neither `-` nor a square")]
    Target,
    /// A counter is no decimal number up to 65,535 without leading zeros, or the fullmove number is 0.
    #[error("a counter is no number up to 65535 without leading zeros, or the fullmove number is 0")]
    Counter,
    /// The position is not valid.
    #[error("the position is not valid")]
    Board(#[source] BadBoard),
}

/// The texts of a FEN's six fields.
#[derive(Clone, Copy)]
pub struct Fields<'a> {
    pub placement: &'a str,
    pub side: &'a str,
    pub castling: &'a str,
    pub target: &'a str,
    pub halfmove: &'a str,
    pub fullmove: &'a str,
}

// The first field, and what follows the space after it.
fn take_field(text: &str) -> Result<(&str, &str), FenError>
    ensures field { IfOk result (λ parts. IsFenField parts.0.now) }
    ensures parts { IfOk result (λ parts. text.now ≡ parts.0.now ++ (32 ∷ parts.1.now)) }
    ensures fault { IfErr result (λ fault. fault ≡ faults.Shape) }
    ensures none { IfErr result (λ _. (field rest : List ℕ) → IsFenField field → text.now ≢ field ++ (32 ∷ rest)) }
{
    match text.split_once(' ') {
        Some((field, rest)) if !field.is_empty() => Ok((field, rest)),
        _ => Err(FenError::Shape),
    }
}

// The text, if it is one field.
fn whole_field(text: &str) -> Result<&str, FenError>
    ensures field { IfOk result (λ field. IsFenField field.now) }
    ensures same { IfOk result (λ field. field.now ≡ text.now) }
    ensures fault { IfErr result (λ fault. fault ≡ faults.Shape) }
    ensures none { IfErr result (λ _. ¬ IsFenField text.now) }
{
    if text.is_empty() || text.as_bytes().contains(&b' ') {
        Err(FenError::Shape)
    } else {
        Ok(text)
    }
}

impl<'a> Fields<'a> {
    /// The six fields of a text, or `Shape` where it has not six.
    pub fn of(text: &'a str) -> Result<Fields<'a>, FenError>
        ensures split { IfOk result (λ f. HasFields text.entry.now
            (fields_of f.placement.now f.side.now f.castling.now f.target.now
            f.halfmove.now f.fullmove.now)) }
        ensures fault { IfErr result (λ fault. fault ≡ faults.Shape) }
        ensures none { IfErr result (λ _. (f : FenFields) → ¬ HasFields text.entry.now f) }
    {
        let (placement, rest) = take_field(text)?;
        let (side, rest) = take_field(rest)?;
        let (castling, rest) = take_field(rest)?;
        let (target, rest) = take_field(rest)?;
        let (halfmove, rest) = take_field(rest)?;
        let fullmove = whole_field(rest)?;
        Ok(Fields {
            placement,
            side,
            castling,
            target,
            halfmove,
            fullmove,
        })
    }
}

/// The side to move that a field tells.
pub fn side_named(text: &str) -> Result<Colour, FenError>
    ensures told { IfOk result (TellsSide text.now) }
    ensures fault { IfErr result (λ fault. fault ≡ faults.Side) }
    ensures none { IfErr result (λ _. (side : Colour) → ¬ TellsSide text.now side) }
{
    match text.as_bytes() {
        &[b'w'] => Ok(Colour::White),
        &[b'b'] => Ok(Colour::Black),
        _ => Err(FenError::Side),
    }
}

/// The castling rights that a field tells: those whose letters it has, if it is what is written for them.
pub fn rights_named(text: &str) -> Result<CastlingRights, FenError>
    ensures told { IfOk result (λ rights. TellsRights text.now (rights_of rights)) }
    ensures fault { IfErr result (λ fault. fault ≡ faults.Castling) }
    ensures none { IfErr result (λ _. (rights : Rights) → ¬ TellsRights text.now rights) }
{
    let letters = text.as_bytes();
    let rights = CastlingRights::of(
        letters.contains(&b'K'),
        letters.contains(&b'Q'),
        letters.contains(&b'k'),
        letters.contains(&b'q'),
    );
    let mut written = ArrayString::new();
    push_rights(&mut written, rights);
    if written.as_str() == text {
        Ok(rights)
    } else {
        Err(FenError::Castling)
    }
}

/// The target that a field tells.
pub fn target_named(text: &str) -> Result<Option<Square>, FenError>
    ensures told { IfOk result (TellsTarget text.now) }
    ensures fault { IfErr result (λ fault. fault ≡ faults.Target) }
    ensures none { IfErr result (λ _. (target : Option Square) → ¬ TellsTarget text.now target) }
{
    match text.as_bytes() {
        &[b'-'] => Ok(None),
        &[file, rank] => match square_named(file, rank) {
            Some(square) => Ok(Some(square)),
            None => Err(FenError::Target),
        },
        _ => Err(FenError::Target),
    }
}

/// The number from `least` on that a field tells: it is read, and must be what is written for it.
pub fn number_named(text: &str, least: u16) -> Result<u16, FenError>
    ensures told { IfOk result (TellsNumber least text.now) }
    ensures fault { IfErr result (λ fault. fault ≡ faults.Counter) }
    ensures none { IfErr result (λ _. (number : ℕ) → ¬ TellsNumber least text.now number) }
{
    let Ok(number) = text.parse::<u16>() else {
        return Err(FenError::Counter);
    };
    let mut buffer = Buffer::new();
    if number >= least && buffer.format(number) == text {
        Ok(number)
    } else {
        Err(FenError::Counter)
    }
}
