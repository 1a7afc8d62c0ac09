//! The writer: how far an output is filled. The output itself is lent to each call beside it.
ghost use Rattle.std.specs.Prelude.{◌≡◌};
ghost use Rattle.output.specs.Text.{Added};
ghost use Rattle.output.specs.Writers.{out_of, fresh};

use crate::room::{Put, put_text};
use itoa::{Buffer, Integer};

/// The fill mark of an output, and how many lines were lost for want of room.
// Kept: a plain record that travels beside the output, and not a struct that holds it: the output stays the caller's own, lent anew to each call.
#[derive(Drop)]
pub struct Writer {
    pub mark: usize,
    pub lost: u32,
}

impl Writer {
    /// At the start of an output, with no line lost.
    pub fn new() -> Writer
        ensures { result ≡ fresh }
    {
        Writer { mark: 0, lost: 0 }
    }

    /// What fits of the text, from the mark on; whether all of it fitted. A mark past the end leaves no room.
    pub fn text(&mut self, out: &mut [u8], text: &[u8]) -> bool
        ensures { Added text.now (out_of self.old out.old) (out_of self.new out.new) result }
    {
        let start = self.mark.min(out.len());
        let put = put_text(&mut out[start..], text);
        self.mark += put.size;
        put.whole
    }

    /// The number in decimal, likewise; a negative one after its sign.
    // Kept: no `write!`, whose contract says nothing of a text that does not fit.
    pub fn number<I: Integer>(&mut self, out: &mut [u8], n: I) -> bool
        ensures { Added (I.text n) (out_of self.old out.old) (out_of self.new out.new) result }
    {
        self.text(out, Buffer::new().format(n).as_bytes())
    }

    /// What a printer answers that wrote with a new writer from the start of its room.
    pub fn into_put(self, whole: bool) -> Put
        ensures size { result.size ≡ self.mark }
        ensures whole { result.whole ≡ whole }
    {
        Put {
            size: self.mark,
            whole,
        }
    }
}
