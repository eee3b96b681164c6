//! A players' file is read.
ghost use Rattle.std.specs.Prelude.{◌≡◌, ◌≢◌, ◌==◌, suc, true, [], OnOk, IfOk, IfErr, IfNone};
ghost use Rattle.lobby_players.specs.File.{IsFileOf, ends_line, entry_of, entries_of};
ghost use Rattle.lobby_players.specs.Faults.{IsFault, IsRereadFault, TakesLine};
ghost use Rattle.lobby_players.specs.Seen.{AreSeen};
ghost use Rattle.lobby_players.specs.File as file;
ghost use Rattle.std.specs.List.{list_any, count_by};

use crate::faults::{LineFault, PlayersFault, RereadFault};
use crate::line::player_of;
use crate::lines::is_silent;
use crate::seen::Seen;
use lobby_words::Player;
use player_name::Name;
use std::alloc::{AllocError, Global};
use text_parts::parts;

/// Whether a player has the name.
pub fn has_name(players: &[Player], name: &Name) -> bool
    ensures { result ≡ list_any (λ player. file.has_name name.now (entry_of player)) players.now }
{
    players
        .iter()
        .any(|player| player.name.as_str() == name.as_str())
}

/// Whether a player has the sum.
pub fn has_sum(players: &[Player], sum: &[u8; 32]) -> bool
    ensures { result ≡ list_any (λ player. file.has_sum sum.now (entry_of player)) players.now }
{
    players
        .iter()
        .any(|player| player.sum.as_slice() == sum.as_slice())
}

// Puts the player of a line behind those before, of whom is seen what they have, where it has one. It answers the line's
// fault.
fn take(
    alloc: Global,
    players: &mut Vec<Player>,
    seen: &mut Seen,
    line: &str,
) -> Result<Option<LineFault>, AllocError>
    requires { AreSeen seen.old.names.keys seen.old.sums.keys players.old.items }
    ensures taken { IfOk result (TakesLine (entries_of players.old.items) line.now (entries_of players.new.items)) }
    ensures seen { IfOk result (λ fault. IfNone fault
        (AreSeen seen.new.names.keys seen.new.sums.keys players.new.items)) }
{
    if is_silent(line) {
        return Ok(None);
    }
    let Some(player) = player_of(alloc, line)? else {
        return Ok(Some(LineFault::NotPlayer));
    };
    let is_name_new = seen.put_name(alloc, &player.name)?;
    if !is_name_new {
        if has_name(players.as_slice(), &player.name) {
            return Ok(Some(LineFault::NameTwice));
        }
        return Ok(Some(LineFault::NameAlike));
    }
    let is_sum_new = seen.put_sum(player.sum)?;
    if !is_sum_new {
        return Ok(Some(LineFault::TokenTwice));
    }
    players.push(player)?;
    Ok(None)
}

// The number of the line in which the first byte stands that is no UTF-8.
fn broken_line(valid: &[u8]) -> usize
    ensures { result ≡ suc (count_by (λ b. b == 10) valid.now) }
{
    let mut number = 1;
    for byte in valid {
        if *byte == b'\n' {
            number += 1;
        }
    }
    number
}

/// The players of a text, in the order of its lines; else the first line's fault.
pub fn read_text(alloc: Global, text: &str) -> Result<Vec<Player>, PlayersFault>
    ensures players { IfOk result (λ players. IsFileOf text.now (entries_of players.items)) }
    ensures fault { IfErr result (IsFault text.now) }
{
    let lines = parts(alloc, text, '\n')?;
    let mut players = Vec::new(alloc);
    let mut seen = Seen::new(alloc);
    for (i, line) in lines.as_slice().iter().enumerate() {
        if let Some(fault) = take(alloc, &mut players, &mut seen, line)? {
            return Err(PlayersFault::Line(i + 1, fault));
        }
    }
    Ok(players)
}

/// A file's bytes as text; else the fault.
pub fn text_of(bytes: &[u8]) -> Result<&str, PlayersFault>
    ensures text { IfOk result (λ text. text.now ≡ bytes.entry.now) }
    ensures fault { IfErr result (IsFault bytes.entry.now) }
{
    match str::from_utf8(bytes) {
        Ok(text) => Ok(text),
        Err(fault) => {
            let valid = &bytes[..fault.valid_up_to()];
            Err(PlayersFault::NotText(broken_line(valid)))
        }
    }
}

/// The players of a file, in the order of its lines; else the first fault.
pub fn read(alloc: Global, text: &[u8]) -> Result<Vec<Player>, PlayersFault>
    ensures players { IfOk result (λ players. IsFileOf text.now (entries_of players.items)) }
    ensures fault { IfErr result (IsFault text.now) }
{
    let text = text_of(text)?;
    read_text(alloc, text)
}

// Whether a text ends with a line feed.
fn ends_line(text: &[u8]) -> bool
    ensures { result ≡ ends_line text.now }
{
    !text.is_empty() && text[text.len() - 1] == b'\n'
}

/// The players of a file that is to take the place of one by which a lobby serves, in the order of its lines; else
/// why it is not taken: its first fault, or that it has no player, or that its last line has no line feed. An editor
/// that writes it, or a disk that is full, leaves such a file.
pub fn reread(alloc: Global, text: &[u8]) -> Result<Vec<Player>, RereadFault>
    ensures players { IfOk result (λ players. IsFileOf text.now (entries_of players.items)) }
    ensures some { IfOk result (λ players. players.items ≢ []) }
    ensures whole { OnOk result (ends_line text.now ≡ true) }
    ensures fault { IfErr result (IsRereadFault text.now) }
{
    let players = match read(alloc, text) {
        Ok(players) => players,
        Err(fault) => return Err(RereadFault::File(fault)),
    };
    if players.is_empty() {
        return Err(RereadFault::NoPlayer);
    }
    if !ends_line(text) {
        return Err(RereadFault::CutShort);
    }
    Ok(players)
}
