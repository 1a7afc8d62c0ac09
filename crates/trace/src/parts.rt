//! The parts of lines: what fits of each is written from the mark on, and the answer is whether all of it did.
ghost use Rattle.output.specs.Text.{Added};
ghost use Rattle.output.specs.Writers.{out_of};
ghost use Rattle.trace.specs.Lines.{level_text, placed};

use output::writer::Writer;
use values::value::Value;

/// The level of a group, which prints as one less than the level inside it.
pub fn write_level(writer: &mut Writer, out: &mut [u8], level: u8) -> bool
    ensures { Added (level_text level) (out_of writer.old out.old) (out_of writer.new out.new) result }
{
    writer.text(out, b" group (level ");
    writer.number(out, level.saturating_sub(1));
    writer.text(out, b")")
}

/// The words and the line's number, or nothing at line 0.
pub fn write_place(writer: &mut Writer, out: &mut [u8], words: &[u8], line: u16) -> bool
    ensures { Added (placed words.now line) (out_of writer.old out.old) (out_of writer.new out.new) result }
{
    if line == 0 {
        return true;
    }
    writer.text(out, words);
    writer.number(out, line)
}

/// The register at the place, as the value prints it in the rest of the output.
pub fn write_register<V: Value>(
    writer: &mut Writer,
    out: &mut [u8],
    pool: &V::Pool,
    place: u32,
    value: &V,
) -> bool
    ensures { Added (V.Value.ops.shown value.now (V.Value.meaning pool.now) place)
        (out_of writer.old out.old) (out_of writer.new out.new) result }
{
    // Kept: the rest of the output is lent on to the value's printer, which knows of no writer (a form that the library keeps).
    let start = writer.mark.min(out.len());
    let put = value.print(pool, place, &mut out[start..]);
    writer.mark += put.size;
    put.whole
}
