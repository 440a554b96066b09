// How many records are compared and differ, and a printed line a group.

use crate::file::DataFile;
use std::io;

// How many of the differing records a line names.
const NAMED: u64 = 5;

#[derive(Clone, Copy, Default)]
struct Count {
    compared: u64,
    differ: u64,
}

impl Count {
    fn add(&mut self, more: Count) {
        self.compared = self.compared.wrapping_add(more.compared);
        self.differ = self.differ.wrapping_add(more.differ);
    }

    fn say(self, rt: &impl Print) -> io::Result<()> {
        println!(rt; ": {} compared, {} differ", self.compared, self.differ)
    }
}

// The group at hand and its records so far; the records of the groups before it.
#[derive(Clone, Copy, Default)]
pub struct Tally {
    group: u32,
    so_far: Count,
    before: Count,
}

impl Tally {
    // Counts the next record of a file. The first of a group has its name printed, the last its numbers, and the first
    // few that differ their places in the group.
    pub fn add_record(
        &mut self,
        rt: &impl Print,
        file: DataFile<'_>,
        same: bool,
    ) -> io::Result<()> {
        let group = file.group(self.group);
        if self.so_far.compared == 0 {
            rt.write_all(group.name)?;
        }
        if !same && self.so_far.differ < NAMED {
            print!(rt; " #{}", self.so_far.compared)?;
        }
        self.so_far.add(Count {
            compared: 1,
            differ: u64::from(!same),
        });
        if self.so_far.compared == u64::from(group.records) {
            self.end_group(rt)?;
        }
        Ok(())
    }

    fn end_group(&mut self, rt: &impl Print) -> io::Result<()> {
        self.so_far.say(rt)?;
        self.before.add(self.so_far);
        self.group = self.group.wrapping_add(1);
        self.so_far = Count::default();
        Ok(())
    }

    // The last line: all groups together.
    pub fn say_all(&self, rt: &impl Print) -> io::Result<()> {
        rt.write_all(b"all")?;
        self.before.say(rt)
    }
}
