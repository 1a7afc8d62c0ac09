//! A line that is being written.
ghost use Rattle.std.specs.Prelude.{◌≡◌, false};
ghost use Rattle.trace.specs.Ends.{ended};

use output::writer::Writer;

/// A line that is being written: unless it was completed, its end puts the mark back and counts it as lost.
// Kept: a flag beside the start, which is read only where the line is not done. An Option of the start, emptied to complete the line, says the same in no fewer words.
pub struct Line<'w> {
    pub writer: &'w mut Writer,
    pub start: usize,
    pub done: bool,
}

impl<'w> Line<'w> {
    /// A line from the mark on, not completed yet.
    pub fn begin(writer: &'w mut Writer) -> Line<'w>
        ensures same_reference { result.writer.ghost_name ≡ writer.entry.ghost_name }
        ensures writer { result.writer.now ≡ writer.old }
        ensures start { result.start ≡ writer.old.mark }
        ensures done { result.done ≡ false }
    {
        let start = writer.mark;
        Line {
            writer,
            start,
            done: false,
        }
    }
}

impl Drop for Line<'_> {
    fn drop(self)
        ensures { self.exit.0.now ≡ ended self.entry.done self.entry.start self.entry.writer.now }
    {
        let Line {
            writer,
            start,
            done,
        } = self;
        if !done {
            writer.mark = start;
            writer.lost = writer.lost.saturating_add(1);
        }
    }
}
