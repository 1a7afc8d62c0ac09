//! The lines of registers.
ghost use Rattle.std.specs.Prelude.{◌≡◌};
ghost use Rattle.output.specs.Text.{wrote, stands};
ghost use Rattle.output.specs.Writers.{out_of};
ghost use Rattle.trace.specs.Lines.{register_verb, register_end, register_line};

use crate::line::Line;
use crate::parts::write_register;
use output::writer::Writer;
use values::value::Value;

/// What happens to a register.
#[derive(Clone, Copy)]
pub enum RegisterEvent {
    /// It gets back the value that it had outside the group that ends.
    Restoring,
    /// It keeps the value that was assigned to it globally.
    Retaining,
    /// It stands in the listing.
    Listed,
}

impl RegisterEvent {
    /// What its line begins with.
    fn verb(self) -> &'static [u8]
        ensures { result.now ≡ register_verb self }
    {
        match self {
            RegisterEvent::Restoring => b"{restoring ",
            RegisterEvent::Retaining => b"{retaining ",
            RegisterEvent::Listed => b"",
        }
    }

    /// What its line ends with.
    fn end(self) -> &'static [u8]
        ensures { result.now ≡ register_end self }
    {
        match self {
            RegisterEvent::Restoring | RegisterEvent::Retaining => b"}\n",
            RegisterEvent::Listed => b"\n",
        }
    }
}

/// `{restoring \count1=5}`, `{retaining \count1=5}`, or `\count1=5` in the listing; whether the line stands.
pub fn register_line<V: Value>(
    writer: &mut Writer,
    out: &mut [u8],
    event: RegisterEvent,
    pool: &V::Pool,
    place: u32,
    value: &V,
) -> bool
    ensures result { result ≡ stands (out_of writer.old out.old) (register_line event (V.Value.ops.shown value.now (V.Value.meaning pool.now) place)) }
    ensures wrote { out_of writer.new out.new ≡ wrote (out_of writer.old out.old) (register_line event (V.Value.ops.shown value.now (V.Value.meaning pool.now) place)) }
{
    let mut entry = Line::begin(writer);
    if entry.writer.lost > 0 {
        return false;
    }
    entry.writer.text(out, event.verb());
    write_register(entry.writer, out, pool, place, value);
    let whole = entry.writer.text(out, event.end());
    entry.done = whole;
    whole
}
