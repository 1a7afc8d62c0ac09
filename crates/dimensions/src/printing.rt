//! Printing a dimension in points.
ghost use Rattle.std.specs.Prelude.{◌≡◌, ◌%◌};
ghost use Rattle.output.specs.Text.{Piece, Added};
ghost use Rattle.output.specs.Writers.{out_of};
ghost use Rattle.dimensions.specs.DigitLoops.{eased, fraction};
ghost use Rattle.dimensions.specs.Dimensions.{shown, points, dimension};

use crate::POINT;
use output::room::Put;
use output::writer::Writer;

/// The dimension of `n` scaled points, as much of it as fits.
pub fn put_dimension(to: &mut [u8], n: i32) -> Put
    ensures { Piece (dimension n) to.old to.new result.size result.whole }
{
    let mut writer = Writer::new();
    let whole = write_dimension(&mut writer, to, n);
    writer.into_put(whole)
}

/// What fits of the dimension of `n` scaled points, from the mark on; whether all of it fitted.
pub fn write_dimension(writer: &mut Writer, out: &mut [u8], n: i32) -> bool
    ensures { Added (dimension n) (out_of writer.old out.old) (out_of writer.new out.new) result }
{
    if n < 0 {
        writer.text(out, b"-");
    }
    write_points(writer, out, n.unsigned_abs())
}

/// A size in scaled points, likewise.
fn write_points(writer: &mut Writer, out: &mut [u8], size: u32) -> bool
    ensures { Added (points size) (out_of writer.old out.old) (out_of writer.new out.new) result }
{
    writer.number(out, size / POINT);
    writer.text(out, b".");
    write_fraction(writer, out, size);
    writer.text(out, b"pt")
}

/// The digits of what `size` has past its whole points, likewise: one to five, which read back as it.
fn write_fraction(writer: &mut Writer, out: &mut [u8], size: u32) -> bool
    ensures { Added (shown (fraction (size % 65536))) (out_of writer.old out.old) (out_of writer.new out.new) result }
{
    // The loop of section 103 of TeX: The Program, where each digit goes out as it comes.
    let mut left = 10 * (size % POINT) + 5;
    let mut precision = 10;
    loop {
        let rounded = ease(left, precision);
        let digit = b'0' + (rounded / POINT) as u8;
        let whole = writer.text(out, &[digit]);
        left = 10 * (rounded % POINT);
        precision *= 10;
        if left <= precision {
            return whole;
        }
    }
}

/// What is left to print, rounded where the next digit is the last: there TeX takes 50,000 off and puts 32,768 back.
fn ease(left: u32, precision: u32) -> u32
    ensures { result ≡ eased left precision }
{
    if precision > POINT {
        left.saturating_sub(17_232)
    } else {
        left
    }
}
