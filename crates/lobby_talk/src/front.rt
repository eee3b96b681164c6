//! What stands in front of what came of a browser's socket.
ghost use Rattle.std.specs.Prelude.{ℕ, ◌≡◌, ◌≢◌, ◌≤◌, ◌<◌, ◌++◌, ◌||◌, true, false, List, codes, length, take};
ghost use Rattle.std.specs.Str.{bytes_eq};
ghost use Rattle.lobby_words.specs.Words.{word_of, sort_of};
ghost use Rattle.lobby_words.specs.declared.words.Sort.TheVariants.{Nothing};
ghost use Rattle.lobby_talk.specs.Front.{is_act, is_brief, is_short_text, letter_at, has_letters, letters};
ghost use Rattle.lobby_talk.specs.Front.{has_act, has_brief, asks_offers, is_hidden, is_whole, may_be_act, is_hasty_word};
ghost use Rattle.lobby_talk.specs.Front.{begins, brief_words, long_words, has_word, text_frame};

/// The first byte of a frame that is a whole text message, and the least and the most that the second one has where a
/// mask stands behind it, and then at most 125 bytes (RFC 6455, 5.2).
const TEXT: u8 = 129;

const SHORT_LEAST: u8 = 128;

const SHORT_MOST: u8 = 253;

/// The second byte is so much more than the length of the whole frame: the text has so many bytes as that is beyond the
/// least, and the head and the mask have six.
const TO_END: usize = 122;

/// The least second byte where the text has six letters.
const SIX_LETTERS: u8 = SHORT_LEAST + 6;

/// Behind so many bytes its first five letters are there: the head has two, and the mask four.
const LETTERS_END: usize = 11;

// Whether a message is an act or a login, by how it begins.
#[tactic(auto, unfolding(crate::specs::Front::is_act))]
fn is_act(text: &[u8]) -> bool
    ensures { result ≡ is_act text.now }
{
    text.starts_with(b"move ")
        || text.starts_with(b"offer")
        || text.starts_with(b"accep")
        || text.starts_with(b"decli")
        || text.starts_with(b"resig")
        || text.starts_with(b"claim")
        || text.starts_with(b"flag ")
        || text.starts_with(b"open ")
        || text.starts_with(b"join ")
        || text.starts_with(b"drop ")
        || text.starts_with(b"login")
        || text.starts_with(b"pair ")
        || text.starts_with(b"as ")
        || text.starts_with(b"unpai")
}

// Whether a message asks for little, by how it begins.
#[tactic(auto, unfolding(crate::specs::Front::is_brief))]
fn is_brief(text: &[u8]) -> bool
    ensures { result ≡ is_brief text.now }
{
    text.starts_with(b"watch")
        || text.starts_with(b"leave")
        || text.starts_with(b"show ")
        || text.starts_with(b"fen ")
        || text.starts_with(b"room ")
        || text.starts_with(b"moves")
}

// Whether a frame that begins so is a whole text message of at most 125 bytes, and masked.
fn is_short_text(first: u8, second: u8) -> bool
    ensures { result ≡ is_short_text first second }
{
    first == TEXT && SHORT_LEAST <= second && second <= SHORT_MOST
}

// A letter of the text, under a byte of the mask.
fn letter_at(unread: &[u8], place: usize, mask: usize) -> u8
    requires place { place < length unread.now }
    requires mask { mask < length unread.now }
    ensures { result ≡ letter_at unread.now place mask }
{
    unread[place] ^ unread[mask]
}

// Whether what came begins with a whole text message of at most 125 bytes, and the first letters of it are there.
fn has_letters(unread: &[u8]) -> bool
    ensures { result ≡ has_letters unread.now }
{
    unread.len() >= LETTERS_END && is_short_text(unread[0], unread[1])
}

// The first letters of the text in the first frame of what came; zeros where `has_letters` finds none.
#[tactic(auto, unfolding(crate::specs::Front::letters))]
fn letters(unread: &[u8]) -> [u8; 5]
    ensures { result ≡ letters unread.now }
{
    if !has_letters(unread) {
        return [0; 5];
    }
    [
        letter_at(unread, 6, 2),
        letter_at(unread, 7, 3),
        letter_at(unread, 8, 4),
        letter_at(unread, 9, 5),
        letter_at(unread, 10, 2),
    ]
}

// Whether the first frame of what came is a message that begins with `offers`: it asks what is offered, and is no offer
// of a draw.
fn asks_offers(unread: &[u8]) -> bool
    ensures { result ≡ asks_offers unread.now }
{
    unread.len() > LETTERS_END
        && unread[1] >= SIX_LETTERS
        && letters(unread).starts_with(b"offer")
        && letter_at(unread, 11, 3) == b's'
}

/// Whether the first frame of what came is a message that begins as an act or a login does.
pub fn has_act(unread: &[u8]) -> bool
    ensures { result ≡ has_act unread.now }
{
    is_act(&letters(unread)) && !asks_offers(unread)
}

/// Whether the first frame of what came is a message that begins as what asks for little does.
pub fn has_brief(unread: &[u8]) -> bool
    ensures { result ≡ has_brief unread.now }
{
    is_brief(&letters(unread)) || asks_offers(unread)
}

// Whether it is no whole text message of at most 125 bytes, so that how it begins is not seen.
fn is_hidden(unread: &[u8]) -> bool
    ensures { result ≡ is_hidden unread.now }
{
    unread.len() >= 2 && !is_short_text(unread[0], unread[1])
}

// Whether such a frame is there to its end.
fn is_whole(unread: &[u8]) -> bool
    ensures { result ≡ is_whole unread.now }
{
    unread.len() >= 2 && usize::from(unread[1]) <= unread.len() + TO_END
}

/// Whether an act may stand in front of what came: one does, whole, or a frame of which that is not seen, as one by
/// which it comes in frames of its own.
pub fn may_be_act(unread: &[u8]) -> bool
    ensures { result ≡ may_be_act unread.now }
{
    (has_act(unread) && is_whole(unread)) || is_hidden(unread)
}

/// Whatever the first word of an act, of a pairing, of what is offered or of a login is: a text of five letters or more
/// with it begins as an act does, so nothing of these but `offers` is put off as a question; and none with another
/// message's word does, whatever stands behind it. Nor does one that may ask for much begin as `has_brief` has it, and
/// each that asks for little does. There are no other words by which a message asks for something, but `name`, which is
/// the server's own and refused.
pub fn law_of_fronts()
    ensures hasty { (text : List ℕ) → is_hasty_word (word_of text) ≡ true → 5 ≤ length text →
        is_act (take 5 text) ≡ true }
    ensures others { (text rest : List ℕ) → has_word (brief_words ++ long_words) text ≡ true →
        is_act (take 5 (text ++ rest)) ≡ false }
    ensures long { (text rest : List ℕ) → has_word long_words text ≡ true →
        is_brief (take 5 (text ++ rest)) ≡ false }
    ensures brief { (text : List ℕ) → has_word brief_words text ≡ true → 5 ≤ length text →
        is_brief (take 5 text) ≡ true }
    ensures known { (text : List ℕ) → sort_of text ≢ Nothing → bytes_eq (word_of text) (codes "name") ≡ false →
        (is_hasty_word (word_of text) || has_word (brief_words ++ long_words) text) ≡ true }
{}

/// Where a text message of 5 to 125 bytes stands in front, in one masked frame (RFC 6455, 5.2, as `websocket` writes
/// it), the first letters that are read are its own, and it asks what is offered just where it begins so, whatever
/// stands behind it. It is whole where all of the frame is there, and no sooner.
pub fn law_of_letters()
    ensures letters { (key text rest : List ℕ) → length key ≡ 4 → 5 ≤ length text → length text ≤ 125 →
        letters (text_frame key text ++ rest) ≡ take 5 text }
    ensures offers { (key text rest : List ℕ) → length key ≡ 4 → 5 ≤ length text → length text ≤ 125 →
        asks_offers (text_frame key text ++ rest) ≡ begins text (codes "offers") }
    ensures shown { (key text rest : List ℕ) → length text ≤ 125 →
        is_hidden (text_frame key text ++ rest) ≡ false }
    ensures whole { (key text rest : List ℕ) → length key ≡ 4 → length text ≤ 125 →
        is_whole (text_frame key text ++ rest) ≡ true }
    ensures cut { (key text : List ℕ) (count : ℕ) → length key ≡ 4 → length text ≤ 125 →
        count < length (text_frame key text) → is_whole (take count (text_frame key text)) ≡ false }
{}
