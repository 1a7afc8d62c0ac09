//! The mixed value as a kind of value.
ghost use Rattle.std.specs.Prelude.{◌≡◌, ◌/◌, ◌++◌, ◌≢◌, MatchOption};
ghost use Rattle.output.specs.Text.{Added};
ghost use Rattle.output.specs.Writers.{out_of};
ghost use Rattle.token_pool.specs.Meanings.{pool_of};
ghost use Rattle.token_pool.specs.Pools.{PoolModel};
ghost use Rattle.mixed.specs.Mixeds.{mixed_ops, reads_as, class_in, slot};
ghost use Rattle.mixed.specs.Texts.{reading_text};
ghost use Rattle.values.specs.Names.{name_text};
ghost use Rattle.values.specs.Readings.{zero_at, scalar_of};
ghost use Rattle.mixed.specs.MixedLaws.{mixed_laws};

use crate::mixed::Mixed;
use crate::text::write_list;
use dimensions::printing::write_dimension;
use output::room::Put;
use output::writer::Writer;
use token_pool::pool::TokenPool;
use tokens::class::Class;
use tokens::limits::{MAX_DIMENSION, MAX_NUMBER, MAX_REACH};
use values::name::write_name;
use values::scalar::Scalar;
use values::value::Value;

/// The class of registers at a place: register n of class c is place 4n + c, with c = 0 for counts, 1 for dimensions and 3 for lists; None for the free slot.
fn class_at(place: u32) -> Option<Class>
    ensures { MatchOption result (slot place ≡ 2) (λ c. (slot place ≢ 2) × (c ≡ class_in (slot place))) }
{
    match place % 4 {
        0 => Some(Class::Count),
        1 => Some(Class::Dimen),
        3 => Some(Class::Toks),
        _ => None,
    }
}

/// The class that a table shows at a place; the free slot stands with the counts.
fn shown_class(place: u32) -> Class
    ensures { result ≡ class_in (slot place) }
{
    class_at(place).unwrap_or(Class::Count)
}

/// The register at the place, if it holds the value: what fits of it, from the mark on; whether all of it fitted.
fn write_register(
    writer: &mut Writer,
    out: &mut [u8],
    value: Mixed,
    pool: &TokenPool,
    place: u32,
) -> bool
    ensures { Added (name_text (class_in (slot place)) (place / 4) ++ reading_text (reads_as value (pool_of pool.now) place)) (out_of writer.old out.old) (out_of writer.new out.new) result }
{
    write_name(writer, out, shown_class(place), place / 4)
        && write_reading(writer, out, value, pool, place)
}

/// What a register at the place reads as that holds the value: what fits of it, from the mark on; whether all of it fitted.
fn write_reading(
    writer: &mut Writer,
    out: &mut [u8],
    value: Mixed,
    pool: &TokenPool,
    place: u32,
) -> bool
    ensures { Added (reading_text (reads_as value (pool_of pool.now) place)) (out_of writer.old out.old) (out_of writer.new out.new) result }
{
    match value {
        Mixed::Zero => write_zero(writer, out, shown_class(place)),
        Mixed::Number(n) => writer.number(out, n),
        Mixed::Dimension(n) => write_dimension(writer, out, n),
        Mixed::List(list) => write_list(writer, out, pool, list),
    }
}

/// The zero of a class, likewise.
fn write_zero(writer: &mut Writer, out: &mut [u8], class: Class) -> bool
    ensures { Added (reading_text (zero_at class)) (out_of writer.old out.old) (out_of writer.new out.new) result }
{
    match class {
        Class::Count => writer.text(out, b"0"),
        Class::Dimen => write_dimension(writer, out, 0),
        Class::Toks => true,
    }
}

impl Value for Mixed {
    type Pool = TokenPool;

    ghost Meaning = { PoolModel };

    ghost meaning = { pool_of };

    ghost ops = { mixed_ops };

    ghost lawful = { mixed_laws };

    fn zero() -> Mixed {
        Mixed::Zero
    }

    fn is_zero(&self) -> bool {
        matches!(self, Mixed::Zero)
    }

    fn in_bounds(&self) -> bool {
        match *self {
            Mixed::Zero | Mixed::List(_) => true,
            Mixed::Number(n) => n >= -MAX_NUMBER && n != 0,
            Mixed::Dimension(n) => n >= -MAX_DIMENSION && n <= MAX_DIMENSION && n != 0,
        }
    }

    fn fits(&self, place: u32) -> bool {
        match *self {
            Mixed::Zero => class_at(place).is_some(),
            Mixed::Number(_) => class_at(place) == Some(Class::Count),
            Mixed::Dimension(_) => class_at(place) == Some(Class::Dimen),
            Mixed::List(_) => class_at(place) == Some(Class::Toks),
        }
    }

    fn is_register(place: u32) -> bool {
        (place as usize) < MAX_REACH && class_at(place).is_some()
    }

    fn class(place: u32) -> Class {
        shown_class(place)
    }

    fn list(&self) -> Option<u32> {
        match *self {
            Mixed::List(list) => Some(list),
            _ => None,
        }
    }

    fn list_stands(&self, pool: &TokenPool) -> bool {
        match *self {
            Mixed::List(list) => pool.is_there(list),
            _ => true,
        }
    }

    fn scalar(&self, pool: &TokenPool, place: u32) -> Option<Scalar> {
        match *self {
            Mixed::Zero => zero_scalar(shown_class(place)),
            Mixed::Number(n) => Some(Scalar::Number(n)),
            Mixed::Dimension(n) => Some(Scalar::Dimension(n)),
            Mixed::List(_) => None,
        }
    }

    fn token_count(&self, pool: &TokenPool, place: u32) -> u32 {
        match *self {
            Mixed::List(list) => pool.length(list),
            _ => 0,
        }
    }

    fn copy_tokens(&self, pool: &TokenPool, place: u32, words: &mut [u16]) -> bool {
        match *self {
            Mixed::List(list) => pool.copy_tokens(list, words),
            _ => true,
        }
    }

    fn of_scalar(scalar: Scalar) -> Mixed {
        match scalar {
            Scalar::Number(0) | Scalar::Dimension(0) => Mixed::Zero,
            Scalar::Number(n) => Mixed::Number(n),
            Scalar::Dimension(n) => Mixed::Dimension(n),
        }
    }

    fn free_nodes(pool: &TokenPool) -> u32 {
        pool.free_nodes()
    }

    fn make_list(list: &[u16], pool: &mut TokenPool) -> Option<Mixed> {
        if list.is_empty() {
            return Some(Mixed::Zero);
        }
        pool.make(list).map(Mixed::List)
    }

    fn take_use(&self, pool: &mut TokenPool) -> bool {
        match *self {
            Mixed::List(list) => pool.take_use(list),
            _ => true,
        }
    }

    fn drop_use(&self, pool: &mut TokenPool) -> bool {
        match *self {
            Mixed::List(list) => pool.drop_use(list),
            _ => true,
        }
    }

    fn print(&self, pool: &TokenPool, place: u32, to: &mut [u8]) -> Put {
        let mut writer = Writer::new();
        let whole = write_register(&mut writer, to, *self, pool, place);
        writer.into_put(whole)
    }
}

/// The zero of a class as a scalar, if it is no list.
fn zero_scalar(class: Class) -> Option<Scalar>
    ensures { result ≡ scalar_of (zero_at class) }
{
    match class {
        Class::Count => Some(Scalar::Number(0)),
        Class::Dimen => Some(Scalar::Dimension(0)),
        Class::Toks => None,
    }
}
