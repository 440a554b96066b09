// The loop over a file's records.

use crate::file::DataFile;
use crate::record::Record;
use crate::tally::Tally;
use std::io;

// Goes over the records of the file that begins these bytes. `prepare` may put something after the file for the record
// that comes next; `agrees` makes its call, and says whether the library agrees with it.
pub fn run_records<P, A>(
    rt: &impl Print,
    bytes: &mut [u8],
    prepare: P,
    mut agrees: A,
) -> io::Result<()>
where
    P: Fn(&mut [u8], u32),
    A: FnMut(Record<'_>) -> bool,
    requires prepare { P.IsAlwaysCallable prepare }
    requires agrees { A.IsAlwaysCallable agrees }
{
    let mut tally = Tally::default();
    for k in 0..DataFile::new(bytes).record_count() {
        let place = DataFile::new(bytes).record_place(k);
        prepare(bytes, k);
        let file = DataFile::new(bytes);
        tally.add_record(rt, file, agrees(file.record_at(place)))?;
    }
    tally.say_all(rt)
}
