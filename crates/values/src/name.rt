//! The names of registers, as they are printed.
ghost use Rattle.output.specs.Text.{Added};
ghost use Rattle.output.specs.Writers.{out_of};
ghost use Rattle.values.specs.Names.{name_text};

use output::writer::Writer;
use tokens::class::Class;

/// A register's name up to its value: what fits of it, from the mark on.
pub fn write_name(writer: &mut Writer, out: &mut [u8], class: Class, number: u32) -> bool
    ensures { Added (name_text class number) (out_of writer.old out.old) (out_of writer.new out.new) result }
{
    writer.text(out, b"\\");
    writer.text(out, class.name());
    writer.number(out, number);
    writer.text(out, b"=")
}
