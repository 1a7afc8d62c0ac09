//! Plain numbers: the small model's count registers, with nothing shared.
ghost use Rattle.std.specs.Prelude.{◌≡◌};
ghost use Rattle.values.specs.Plains.{plain_of, plain_ops};
ghost use Rattle.std.proofs.Common.{rules};

use crate::name::write_name;
use crate::scalar::Scalar;
use crate::value::Value;
use output::room::Put;
use output::writer::Writer;
use tokens::class::Class;
use tokens::limits::MAX_NUMBER;

/// How many count registers the small model has.
pub const PLAIN_COUNTS: u32 = 256;

/// A number.
#[derive(Clone, Copy)]
pub struct Plain {
    pub number: i32,
}

impl From<i32> for Plain {
    ghost from_gives = { λ number plain. plain ≡ plain_of number };

    fn from(number: i32) -> Plain {
        Plain { number }
    }
}

/// The pool of a kind of value that shares no lists.
#[derive(Clone, Copy)]
pub struct NoPool;

impl Value for Plain {
    type Pool = NoPool;

    ghost Meaning = { Unit {0} };

    ghost meaning = { λ _. tt };

    ghost ops = { plain_ops };

    ghost lawful = { Prim.search rules };

    fn zero() -> Plain {
        Plain { number: 0 }
    }

    fn is_zero(&self) -> bool {
        self.number == 0
    }

    fn in_bounds(&self) -> bool {
        // No i32 is above MAX_NUMBER.
        self.number >= -MAX_NUMBER
    }

    fn fits(&self, place: u32) -> bool {
        true
    }

    fn is_register(place: u32) -> bool {
        place < PLAIN_COUNTS
    }

    fn class(place: u32) -> Class {
        Class::Count
    }

    fn list(&self) -> Option<u32> {
        None
    }

    fn list_stands(&self, pool: &NoPool) -> bool {
        true
    }

    fn scalar(&self, pool: &NoPool, place: u32) -> Option<Scalar> {
        Some(Scalar::Number(self.number))
    }

    fn token_count(&self, pool: &NoPool, place: u32) -> u32 {
        0
    }

    fn copy_tokens(&self, pool: &NoPool, place: u32, words: &mut [u16]) -> bool {
        true
    }

    fn of_scalar(scalar: Scalar) -> Plain {
        match scalar {
            Scalar::Number(number) => Plain::from(number),
            Scalar::Dimension(_) => Plain { number: 0 },
        }
    }

    fn free_nodes(pool: &NoPool) -> u32 {
        0
    }

    fn make_list(list: &[u16], pool: &mut NoPool) -> Option<Plain> {
        list.is_empty().then_some(Plain { number: 0 })
    }

    fn take_use(&self, pool: &mut NoPool) -> bool {
        true
    }

    fn drop_use(&self, pool: &mut NoPool) -> bool {
        true
    }

    fn print(&self, pool: &NoPool, place: u32, to: &mut [u8]) -> Put {
        let mut writer = Writer::new();
        write_name(&mut writer, to, Class::Count, place);
        let whole = writer.number(to, self.number);
        writer.into_put(whole)
    }
}
