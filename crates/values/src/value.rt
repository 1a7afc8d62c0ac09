//! A kind of value: what registers of one model hold, with the pool of the lists that they share.
ghost use Rattle.std.specs.Prelude.{◌≡◌, ℕ, true, Some, None, nat_lt};
ghost use Rattle.output.specs.Text.{Piece};
ghost use Rattle.tokens.specs.Copies.{fitted, copied};
ghost use Rattle.values.specs.Readings.{tokens, scalar_of, tokens_of, tokens_count, of_scalar, cost};
ghost use Rattle.values.specs.Ops.{Ops, list_stands, MadeOf};
ghost use Rattle.values.specs.Laws.{Laws};

use crate::scalar::Scalar;
use output::room::Put;
use tokens::class::Class;

/// A kind of value. Its tables are all of one model, which tells what stands at a place.
pub trait Value: Copy {
    /// What holds the lists that values of this kind share.
    type Pool;

    ghost Meaning: { Type 0 };

    ghost meaning: { Self.Pool → Meaning };

    ghost ops: { Ops Self Meaning };

    /// The zero of every class.
    fn zero() -> Self
        ensures { result ≡ ops.zero };

    /// Whether it is that zero.
    fn is_zero(&self) -> bool
        ensures { result ≡ ops.is_zero self.now };

    /// Whether it is within its bounds, and in the one form that what it reads as has.
    fn in_bounds(&self) -> bool
        ensures { result ≡ ops.bounded self.now };

    /// Whether it may stand at the place.
    fn fits(&self, place: u32) -> bool
        ensures { result ≡ ops.fits self.now place };

    /// Whether the place is a register of the model.
    fn is_register(place: u32) -> bool
        ensures { result ≡ ops.register place };

    /// What a register at the place holds.
    fn class(place: u32) -> Class
        ensures { result ≡ ops.class_of place };

    /// The shared list that it names.
    fn list(&self) -> Option<u32>
        ensures { result ≡ ops.list self.now };

    /// Whether the list that it names, if any, is there.
    fn list_stands(&self, pool: &Self::Pool) -> bool
        ensures { result ≡ list_stands ops self.now (meaning pool.now) };

    /// What it reads as at the place, unless that is a list.
    fn scalar(&self, pool: &Self::Pool, place: u32) -> Option<Scalar>
        ensures { result ≡ scalar_of (ops.reads self.now (meaning pool.now) place) };

    /// How many tokens the list has that it reads as at the place; 0 if that is none.
    fn token_count(&self, pool: &Self::Pool, place: u32) -> u32
        ensures { result ≡ tokens_count (ops.reads self.now (meaning pool.now) place) };

    /// Puts the tokens of that list, in their order, at the front of the words, if they fit.
    fn copy_tokens(&self, pool: &Self::Pool, place: u32, words: &mut [u16]) -> bool
        ensures result { result ≡ fitted (tokens_of (ops.reads self.now (meaning pool.now) place)) words.old }
        ensures after { words.new ≡ copied (tokens_of (ops.reads self.now (meaning pool.now) place)) words.old };

    /// The value that reads as the scalar wherever that can stand.
    fn of_scalar(scalar: Scalar) -> Self
        ensures { (b : ℕ) → result ≡ ops.made (of_scalar scalar) b };

    /// How many nodes of the pool are free.
    fn free_nodes(pool: &Self::Pool) -> u32
        ensures { result ≡ ops.free (meaning pool.now) };

    /// A new list of the tokens, which nothing uses yet; nothing if its nodes are not free. Which list is chosen is left open.
    fn make_list(list: &[u16], pool: &mut Self::Pool) -> Option<Self>
        ensures { elim result [
          | Some v ↦ MadeOf ops (tokens list.now) (meaning pool.old) (meaning pool.new) v
          | None ↦ (meaning pool.new ≡ meaning pool.old) × (nat_lt (ops.free (meaning pool.old)) (cost (tokens list.now)) ≡ true)
        ] };

    /// One use more of its list, if it names one; nothing, and false, if that is not there or has the most uses.
    fn take_use(&self, pool: &mut Self::Pool) -> bool
        ensures result { result ≡ ops.takes self.now (meaning pool.old) }
        ensures after { meaning pool.new ≡ ops.taken self.now (meaning pool.old) };

    /// One use less of its list, which goes with its last; nothing, and false, if it is not there.
    fn drop_use(&self, pool: &mut Self::Pool) -> bool
        ensures result { result ≡ ops.drops self.now (meaning pool.old) }
        ensures after { meaning pool.new ≡ ops.dropped self.now (meaning pool.old) };

    /// The register at the place, if it holds this value: as much of it as fits.
    fn print(&self, pool: &Self::Pool, place: u32, to: &mut [u8]) -> Put
        ensures { Piece (ops.shown self.now (meaning pool.now) place) to.old to.new result.size result.whole };

    ghost lawful: { Laws ops };
}
