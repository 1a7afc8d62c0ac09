//! The words of the language, by their codes.
ghost use Rattle.std.specs.Prelude.{◌≡◌};
ghost use Rattle.tokens.specs.Words.{word_code, word_text};

use crate::code::FIRST_WORD;

/// A word of the language. Their codes follow one another from `FIRST_WORD` on, in this order.
#[derive(Clone, Copy, PartialEq, Eq, Debug)]
pub enum ControlWord {
    BeginGroup,
    EndGroup,
    Hbox,
    Cell,
    EndCell,
    Global,
    Count,
    Dimen,
    Toks,
    AfterGroup,
    The,
    Relax,
}

/// The letters of the words, in the order of their codes.
// Kept: a table beside the enum. A `match` over codes would write each code and each word once more.
pub const WORDS: [&[u8]; 12] = [
    b"begingroup",
    b"endgroup",
    b"hbox",
    b"cell",
    b"endcell",
    b"global",
    b"count",
    b"dimen",
    b"toks",
    b"aftergroup",
    b"the",
    b"relax",
];

impl ControlWord {
    /// The code of the word.
    pub fn code(self) -> u16
        ensures { result ≡ word_code self }
    {
        FIRST_WORD + self as u16
    }
}

/// The letters of the word of a code; none for a code that is no word's.
pub fn word(code: u16) -> &'static [u8]
    ensures { result.now ≡ word_text code }
{
    let Some(place) = code.checked_sub(FIRST_WORD) else {
        return b"";
    };
    // Kept: a `match`. After `copied` and `unwrap_or`, or `map_or`, the check no longer finds the letters.
    match WORDS.get(usize::from(place)) {
        Some(letters) => letters,
        None => b"",
    }
}
