use chess_bits::Colour;

/// What a game does to its clock.
#[derive(Clone, Copy)]
pub enum ClockEvent {
    /// A turn of the side ended with a completed move, after so many milliseconds.
    Turn(Colour, u64),
    /// The side made a wrong claim of a draw, for which its opponent gets 120,000 milliseconds (FIDE article 9.5.3).
    WrongClaim(Colour),
}
