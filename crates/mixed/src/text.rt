//! How values of the large model print.
ghost use Rattle.output.specs.Text.{Added};
ghost use Rattle.output.specs.Writers.{out_of};
ghost use Rattle.std.specs.List.{flat_map};
ghost use Rattle.token_pool.specs.Meanings.{pool_of};
ghost use Rattle.mixed.specs.Texts.{token_text};

use output::writer::Writer;
use token_pool::pool::TokenPool;
use tokens::code::FIRST_WORD;
use tokens::word::word;

/// A token: a byte as itself, a word with its backslash and one space after it. What fits of it, from the mark on; whether all of it fitted.
pub fn write_token(writer: &mut Writer, out: &mut [u8], code: u16) -> bool
    ensures { Added (token_text code) (out_of writer.old out.old) (out_of writer.new out.new) result }
{
    if code < FIRST_WORD {
        return writer.text(out, &[code as u8]);
    }
    writer.text(out, b"\\");
    writer.text(out, word(code));
    writer.text(out, b" ")
}

/// The tokens of a list, in their order, likewise.
pub fn write_list(writer: &mut Writer, out: &mut [u8], pool: &TokenPool, list: u32) -> bool
    ensures { Added (flat_map token_text ((pool_of pool.now).list list)) (out_of writer.old out.old) (out_of writer.new out.new) result }
{
    for code in pool.tokens(list) {
        if !write_token(writer, out, code) {
            return false;
        }
    }
    true
}
