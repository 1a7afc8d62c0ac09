//! A room is the memory that a printer is lent: it fills it from the start, as far as it goes.
ghost use Rattle.output.specs.Text.{Piece};

/// What a printer wrote: how many bytes, and whether its text fitted whole.
// Kept: no Option or Result of the size, since the size counts also where the text was cut: the mark moves by it.
#[derive(Clone, Copy)]
pub struct Put {
    pub size: usize,
    pub whole: bool,
}

/// As much of the text as fits.
pub fn put_text(to: &mut [u8], text: &[u8]) -> Put
    ensures { Piece text.now to.old to.new result.size result.whole }
{
    let size = text.len().min(to.len());
    let whole = text.len() <= to.len();
    to[..size].copy_from_slice(&text[..size]);
    Put { size, whole }
}
