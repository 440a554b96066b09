// The rows of the moved frame, each as runs of bytes: no byte is tested for where it comes from.

ghost use Rattle.std.specs.Prelude.{◌+◌, ◌*◌, ◌<◌, ◌≤◌, length};
ghost use Rattle.rules.specs.Limits.{max_side};
ghost use Rattle.rules.specs.Buffers.{RowAt, FrameAt};
ghost use Rattle.moved.specs.Spans.{Inside, Sized, zeros, bytes_from, laid_byte, placed_byte, placed_row};

use crate::clipping::Span;

// The row at `to` from the raster's row z: zeros, the columns that stay, zeros.
fn copy_row(raster: &[u8], z: usize, out: &mut [u8], to: usize, w: usize, columns: Span)
    requires width { w ≤ max_side }
    requires columns { Inside w columns }
    requires source { 3 * (z * w + w) ≤ length raster.now }
    requires room { to + 3 * w ≤ length out.old }
    ensures { RowAt to (laid_byte w raster.now columns z) out.old (3 * w) out.new }
{
    let skip = 3 * columns.to;
    let n = 3 * columns.count;
    let from = 3 * (z * w + columns.from);
    let first = to + skip;
    let past = first + n;
    out[to..first].fill(0);
    out[first..past].copy_from_slice(&raster[from..from + n]);
    out[past..to + 3 * w].fill(0);
}

// Row y: from the raster's row that is moved to it, or zeros.
fn place_row(raster: &[u8], out: &mut [u8], y: usize, w: usize, h: usize, columns: Span, rows: Span)
    requires sized { Sized w h (length raster.now) (length out.old) }
    requires columns { Inside w columns }
    requires rows { Inside h rows }
    requires inside { y < h }
    ensures { RowAt (y * (3 * w)) (placed_row w raster.now columns rows y) out.old (3 * w) out.new }
{
    let to = y * (3 * w);
    if y < rows.to {
        out[to..to + 3 * w].fill(0);
        return;
    }
    let k = y - rows.to;
    if k < rows.count {
        copy_row(raster, rows.from + k, out, to, w, columns);
        return;
    }
    out[to..to + 3 * w].fill(0);
}

// Every row of the moved frame.
pub fn place_rows(raster: &[u8], out: &mut [u8], w: usize, h: usize, columns: Span, rows: Span)
    requires sized { Sized w h (length raster.now) (length out.old) }
    requires columns { Inside w columns }
    requires rows { Inside h rows }
    ensures { FrameAt 0 (3 * w) (placed_byte w raster.now columns rows) out.old h out.new }
{
    for y in 0..h {
        place_row(raster, out, y, w, h, columns, rows);
    }
}
