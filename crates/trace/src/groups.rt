//! The lines of groups, as e-TeX writes them.
ghost use Rattle.std.specs.Prelude.{◌≡◌};
ghost use Rattle.output.specs.Text.{wrote, stands};
ghost use Rattle.output.specs.Writers.{out_of};
ghost use Rattle.trace.specs.Lines.{group_verb, place_words, group_line};

use crate::line::Line;
use crate::parts::{write_level, write_place};
use output::writer::Writer;
use tokens::group::Group;

/// What happens to a group.
#[derive(Clone, Copy)]
pub enum GroupEvent {
    /// It begins.
    Entering,
    /// It ends.
    Leaving,
}

impl GroupEvent {
    /// What its line begins with.
    fn verb(self) -> &'static [u8]
        ensures { result.now ≡ group_verb self }
    {
        match self {
            GroupEvent::Entering => b"{entering ",
            GroupEvent::Leaving => b"{leaving ",
        }
    }

    /// The words before the number of the line at which the group was opened.
    fn place_words(self) -> &'static [u8]
        ensures { result.now ≡ place_words self }
    {
        match self {
            GroupEvent::Entering => b" at line ",
            GroupEvent::Leaving => b" entered at line ",
        }
    }
}

/// `{entering simple group (level 1) at line 2}` or `{leaving simple group (level 1) entered at line 2}`, where the level inside the group is 2; whether the line stands.
// Kept: the frame of a line stands here and in `registers`. What is written in it takes other parameters there, and a closure for that would have to say what it writes.
pub fn group_line(
    writer: &mut Writer,
    out: &mut [u8],
    event: GroupEvent,
    group: Group,
    level: u8,
) -> bool
    ensures result { result ≡ stands (out_of writer.old out.old) (group_line event group level) }
    ensures wrote { out_of writer.new out.new ≡ wrote (out_of writer.old out.old) (group_line event group level) }
{
    let mut entry = Line::begin(writer);
    if entry.writer.lost > 0 {
        return false;
    }
    entry.writer.text(out, event.verb());
    entry.writer.text(out, group.kind.name());
    write_level(entry.writer, out, level);
    write_place(entry.writer, out, event.place_words(), group.line);
    let whole = entry.writer.text(out, b"}\n");
    entry.done = whole;
    whole
}
