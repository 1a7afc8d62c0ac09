//! The listing of all filled registers.
ghost use Rattle.std.specs.Prelude.{◌≡◌};
ghost use Rattle.output.specs.Writers.{out_of};
ghost use Rattle.engine.specs.Listings.{listing_lines, listed_to, all_stand, listing_answer};

use output::writer::Writer;
use stores::store::Store;
use tokens::refusal::Refusal;
use trace::registers::{RegisterEvent, register_line};
use values::value::Value;

/// Writes every filled register on a line of its own, in order of place. It stops at the first line that does not fit.
pub fn listing<S: Store<V>, V: Value>(
    store: &S,
    pool: &V::Pool,
    writer: &mut Writer,
    out: &mut [u8],
) -> Result<(), Refusal>
    ensures answer { result ≡ listing_answer (all_stand (out_of writer.old out.old) (listing_lines V.Value.ops (S.Store.model store.now) (V.Value.meaning pool.now))) }
    ensures written { out_of writer.new out.new
        ≡ listed_to (out_of writer.old out.old) (listing_lines V.Value.ops (S.Store.model store.now) (V.Value.meaning pool.now)) }
{
    let mut from = 0;
    // Kept: a loop until no further place is filled, and no iterator: a store answers that by an Option, whatever it is made of.
    while let Some(place) = store.next_filled(from) {
        // A filled place is below the reach, so there always is a cell.
        let Some(cell) = store.cell(place) else {
            return Ok(());
        };
        if !register_line(writer, out, RegisterEvent::Listed, pool, place, &cell.value) {
            return Err(Refusal::NoLine);
        }
        from = place + 1;
    }
    Ok(())
}
