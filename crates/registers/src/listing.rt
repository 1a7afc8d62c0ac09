//! The listing.
ghost use Rattle.std.specs.Prelude.{◌≡◌};
ghost use Rattle.output.specs.Writers.{out_of};
ghost use Rattle.engine.specs.Listings.{listing_lines, listed_to, all_stand, listing_answer};

use output::writer::Writer;
use stores::store::Store;
use tokens::refusal::Refusal;
use values::value::Value;

/// Writes every filled register on a line of its own, in order of place. It stops at the first line that does not fit.
// Kept: a call of its own and no `pub use` of the engine's: its contract and its must-fail edit stand at the face, as those of the other calls.
pub fn list_registers<S: Store<V>, V: Value>(
    store: &S,
    pool: &V::Pool,
    writer: &mut Writer,
    out: &mut [u8],
) -> Result<(), Refusal>
    ensures answer { result ≡ listing_answer (all_stand (out_of writer.old out.old) (listing_lines V.Value.ops (S.Store.model store.now) (V.Value.meaning pool.now))) }
    ensures written { out_of writer.new out.new
        ≡ listed_to (out_of writer.old out.old) (listing_lines V.Value.ops (S.Store.model store.now) (V.Value.meaning pool.now)) }
{
    engine::listing::listing(store, pool, writer, out)
}
