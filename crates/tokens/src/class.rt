//! The classes of registers.
ghost use Rattle.std.specs.Prelude.{◌≡◌};
ghost use Rattle.tokens.specs.Classes.{class_word, class_code, class_name, is_list};

use crate::word::{ControlWord, word};

/// What a register holds.
#[derive(Clone, Copy, PartialEq, Eq, Debug)]
pub enum Class {
    /// A number.
    Count,
    /// A dimension.
    Dimen,
    /// A list of tokens.
    Toks,
}

impl Class {
    /// The word by which a text names a register of the class.
    pub fn word(self) -> ControlWord
        ensures { result ≡ class_word self }
    {
        match self {
            Class::Count => ControlWord::Count,
            Class::Dimen => ControlWord::Dimen,
            Class::Toks => ControlWord::Toks,
        }
    }

    /// The code of that word.
    pub fn code(self) -> u16
        ensures { result ≡ class_code self }
    {
        self.word().code()
    }

    /// The letters of that word, without its backslash.
    pub fn name(self) -> &'static [u8]
        ensures { result.now ≡ class_name self }
    {
        word(self.code())
    }

    /// Whether registers of the class hold lists.
    pub fn is_list(self) -> bool
        ensures { result ≡ is_list self }
    {
        matches!(self, Class::Toks)
    }
}
