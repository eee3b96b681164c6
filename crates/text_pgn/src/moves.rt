//! The moves.
ghost use Rattle.std.specs.Prelude.{◌≡◌, ◌++◌, ◌∷◌, [], ◌<◌, Bool, false, IfOk, OnOk, map};
ghost use Rattle.text_pgn.specs.Moves as spec;

use crate::is_move;
use itoa::Buffer;
use std::alloc::{AllocError, Global};

// Two digits.
fn push_two(out: &mut Vec<u8>, number: u8) -> Result<(), AllocError>
    requires { number < 100 }
    ensures { OnOk result (out.new.items ≡ out.old.items ++ spec.two_digits number) }
{
    out.push(b'0' + number / 10)?;
    out.push(b'0' + number % 10)?;
    Ok(())
}

// A comment with what a clock shows.
#[tactic(auto, unfolding(crate::specs::Moves::clock_text))]
fn clock_text(alloc: Global, ms: u64) -> Result<Vec<u8>, AllocError>
    ensures { IfOk result (λ text. text.items ≡ spec.clock_text ms) }
{
    let mut buffer = Buffer::new();
    let hours = buffer.format(ms / 3_600_000);
    let mut text = Vec::from_slice(alloc, b"{[%clk ")?;
    text.extend_from_slice(hours.as_bytes())?;
    text.push(b':')?;
    push_two(&mut text, (ms / 60_000 % 60) as u8)?;
    text.push(b':')?;
    push_two(&mut text, (ms / 1_000 % 60) as u8)?;
    text.extend_from_slice(b"]}")?;
    Ok(text)
}

// A token as it is.
fn push_same(told: &mut Vec<Vec<u8>>, alloc: Global, token: &str) -> Result<(), AllocError>
    ensures { OnOk result (map (λ t. t.items) told.new.items ≡ map (λ t. t.items) told.old.items ++ (token.now ∷ [])) }
{
    let text = Vec::from_slice(alloc, token.as_bytes())?;
    told.push(text)?;
    Ok(())
}

// A comment with what a clock shows, where that is known.
fn push_clock(told: &mut Vec<Vec<u8>>, alloc: Global, clock: Option<u64>) -> Result<(), AllocError>
    ensures { OnOk result (map (λ t. t.items) told.new.items
        ≡ map (λ t. t.items) told.old.items ++ spec.clock_tokens clock) }
{
    if let Some(ms) = clock {
        let text = clock_text(alloc, ms)?;
        told.push(text)?;
    }
    Ok(())
}

// The number of a move of Black's again.
fn push_again(
    told: &mut Vec<Vec<u8>>,
    alloc: Global,
    again: bool,
    number: &str,
) -> Result<(), AllocError>
    ensures { OnOk result (map (λ t. t.items) told.new.items
        ≡ map (λ t. t.items) told.old.items ++ spec.again_tokens again number.now) }
{
    if again {
        let mut text = Vec::from_slice(alloc, number.as_bytes())?;
        text.extend_from_slice(b"..")?;
        told.push(text)?;
    }
    Ok(())
}

// A move with its clock.
fn push_move(
    told: &mut Vec<Vec<u8>>,
    alloc: Global,
    again: bool,
    number: &str,
    token: &str,
    clock: Option<u64>,
) -> Result<(), AllocError>
    ensures { OnOk result (map (λ t. t.items) told.new.items
        ≡ map (λ t. t.items) told.old.items ++ spec.move_tokens again number.now token.now clock) }
{
    push_again(told, alloc, again, number)?;
    push_same(told, alloc, token)?;
    push_clock(told, alloc, clock)?;
    Ok(())
}

/// The clock after the next move, and those behind it.
pub fn cut_clock(clocks: &[Option<u64>]) -> (Option<u64>, &[Option<u64>])
    ensures first { result.0 ≡ spec.first_clock clocks.entry.now }
    ensures rest { result.1.now ≡ spec.next_clocks clocks.entry.now }
{
    match clocks {
        [] => (None, clocks),
        [first, rest @ ..] => (*first, rest),
    }
}

/// The tokens of a game with the clocks between them: behind each move what its player's clock showed, where that is
/// known. It fails where memory is refused.
pub fn told_tokens(
    alloc: Global,
    tokens: &[&str],
    clocks: &[Option<u64>],
) -> Result<Vec<Vec<u8>>, AllocError>
    ensures { IfOk result (λ told. map (λ t. t.items) told.items
        ≡ spec.told_tokens [] false (map (λ t. t.now) tokens.now) clocks.now) }
{
    let mut told = Vec::new(alloc);
    let mut number = "";
    let mut again = false;
    let mut left = clocks;
    for token in tokens {
        if is_move(token) {
            let (clock, rest) = cut_clock(left);
            push_move(&mut told, alloc, again, number, token, clock)?;
            again = clock.is_some();
            left = rest;
        } else {
            push_same(&mut told, alloc, token)?;
            number = *token;
            again = false;
        }
    }
    Ok(told)
}
