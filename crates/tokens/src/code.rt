//! The codes of tokens.
//!
//! A code is a number, and no type that has codes alone: one that is handed in and is none is refused as out of bounds.
ghost use Rattle.std.specs.Prelude.{◌≡◌};
ghost use Rattle.tokens.specs.Codes.{is_code, all_codes};

/// The code of the space token, the least of all.
pub const SPACE: u16 = 32;
/// The last code that is a byte's.
pub const LAST_BYTE: u16 = 126;
/// The byte that begins a word, which is no code itself.
pub const BACKSLASH: u16 = 92;
/// The code of the first word.
pub const FIRST_WORD: u16 = 256;
/// How many words there are.
pub const WORD_COUNT: u16 = 12;

/// Whether it is the code of a token of the language.
#[tactic(auto, unfolding(crate::specs::Codes::is_code))]
pub fn is_code(code: u16) -> bool
    ensures { result ≡ is_code code }
{
    if code < FIRST_WORD {
        code >= SPACE && code <= LAST_BYTE && code != BACKSLASH
    } else {
        code < FIRST_WORD + WORD_COUNT
    }
}

/// Whether each is the code of a token of the language.
pub fn are_codes(codes: &[u16]) -> bool
    ensures { result ≡ all_codes codes.now }
{
    codes.iter().all(|&code| is_code(code))
}
