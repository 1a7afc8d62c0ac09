//! A saved cell comes off the stack.
ghost use Rattle.std.specs.Prelude.{◌≡◌, cond, [], ◌∷◌, ◌==◌, nat_lt};
ghost use Rattle.output.specs.Text.{told};
ghost use Rattle.output.specs.Writers.{out_of};
ghost use Rattle.stores.specs.Stores.{writes};
ghost use Rattle.trace.specs.Lines.{restoring as restoring_line, retaining as retaining_line};

use output::writer::Writer;
use stores::cell::Cell;
use stores::store::Store;
use trace::registers::{RegisterEvent, register_line};
use values::value::Value;

/// Writes the saved cell back, unless the present one is of level 1: that one was assigned globally, and stays. What does not stay drops its use.
pub fn restore<S: Store<V>, V: Value>(
    store: &mut S,
    pool: &mut V::Pool,
    writer: &mut Writer,
    out: &mut [u8],
    place: u32,
    saved: Cell<V>,
)
    ensures cells { S.Store.model store.new
        ≡ cond (((S.Store.model store.old).cells place).level == 1) (S.Store.model store.old)
        (writes V.Value.ops.is_zero (S.Store.model store.old) place saved) }
    ensures uses { V.Value.meaning pool.new
        ≡ cond (nat_lt place (S.Store.model store.old).reach)
        (V.Value.ops.dropped (cond (((S.Store.model store.old).cells place).level == 1) saved.value ((S.Store.model store.old).cells place).value) (V.Value.meaning pool.old))
        (V.Value.meaning pool.old) }
    ensures traced { out_of writer.new out.new
        ≡ told (out_of writer.old out.old)
        (cond (nat_lt place (S.Store.model store.old).reach)
        (cond (((S.Store.model store.old).cells place).level == 1)
        (retaining_line (V.Value.ops.shown ((S.Store.model store.old).cells place).value (V.Value.meaning pool.new) place))
        (restoring_line (V.Value.ops.shown saved.value (V.Value.meaning pool.new) place)) ∷ [])
        []) }
{
    let Some(present) = store.cell(place) else {
        return;
    };
    // Kept: two branches, each with the whole of what happens. To choose event and value first would tear each apart.
    if present.level == 1 {
        saved.value.drop_use(pool);
        register_line(
            writer,
            out,
            RegisterEvent::Retaining,
            pool,
            place,
            &present.value,
        );
    } else {
        present.value.drop_use(pool);
        let _ = store.write(place, saved.value, saved.level);
        register_line(
            writer,
            out,
            RegisterEvent::Restoring,
            pool,
            place,
            &saved.value,
        );
    }
}
