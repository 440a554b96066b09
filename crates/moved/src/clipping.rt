// What is left of a side once it is moved. Columns and rows are clipped alike, once a call.

ghost use Rattle.moved.specs.Spans.{Clipped};

use words::{BIAS, biased};

// The places to..to+count of the moved side come from from..from+count; the others from outside.
#[derive(Clone, Copy)]
pub struct Span {
    pub to: usize,
    pub from: usize,
    pub count: usize,
}

// The span of a side that is moved by d.
pub fn clip(side: usize, d: i32) -> Span
    ensures { Clipped side d result }
{
    let place = biased(d);
    if place < BIAS {
        let skip = side.min(BIAS - place);
        return Span {
            to: 0,
            from: skip,
            count: side - skip,
        };
    }
    let skip = side.min(place - BIAS);
    Span {
        to: skip,
        from: 0,
        count: side - skip,
    }
}
