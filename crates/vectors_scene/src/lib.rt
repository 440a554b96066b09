// Test vectors: frames made by the formula of tests/FORMAT.md.
#![tactic(auto)]

use vectors_data::file::DataFile;
use vectors_data::record::Field;

// How far the window moves from one frame to the next.
const MOVE_RIGHT: u64 = 3;

const MOVE_DOWN: u64 = 2;

fn mixed(value: u64) -> u64 {
    let once = value % 65536 * 40503 % 65536;
    (once ^ once / 128) % 65536 * 30011 % 65536 / 256
}

// What a record says of its made frames.
#[derive(Clone, Copy)]
struct Scene {
    number: u64,
    // of a frame
    width: u64,
    rows: u64,
}

impl Scene {
    // The light of the square cell that holds (x,y); side is not 0.
    fn cell(self, side: u64, x: u64, y: u64) -> u64 {
        if side == 0 {
            return 0;
        }
        let a = x / side % 65536;
        let b = y / side % 65536;
        mixed(61 * a + 1009 * b + 17 * (self.number % 65536) + side % 65536)
    }

    fn light(self, x: u64, y: u64) -> u64 {
        let coarse = self.cell(160, x, y) % 256 / 3 + self.cell(40, x, y) % 256 / 4;
        coarse + self.cell(9, x, y) % 256 / 8 + self.cell(1, x, y) % 256 / 64
    }

    // Byte i of the frames.
    fn byte(self, i: u64) -> u8 {
        if self.width == 0 || self.rows == 0 {
            return 0;
        }
        let row = i / 3 / self.width;
        let frame = row / self.rows % 65536;
        let x = (i / 3 % self.width % 65536 + MOVE_RIGHT * frame) % 65536;
        let y = (row % self.rows % 65536 + MOVE_DOWN * frame) % 65536;
        ((self.light(x, y) % 65536 + 20 * (i % 3) + 7 * (frame % 3)) % 256) as u8
    }
}

// Makes the bytes that record k needs, none for a record of stored frames, and puts them after the file; where they do
// not fit, none are made. Such records have the number of bytes and a frame's rows in the place of the values 3 and 4.
pub fn make_frames(data: &mut [u8], k: u32) {
    let file = DataFile::new(data);
    let record = file.record_at(file.record_place(k));
    let begin = file.length();
    let end = begin.saturating_add(record.size(Field::Value3));
    let scene = Scene {
        number: u64::from(record.number(Field::Scene)),
        width: u64::from(record.number(Field::Width)),
        rows: u64::from(record.number(Field::Value4)),
    };
    if let Some(made) = data.get_mut(begin..end) {
        for (i, byte) in made.iter_mut().enumerate() {
            *byte = scene.byte(i as u64);
        }
    }
}
