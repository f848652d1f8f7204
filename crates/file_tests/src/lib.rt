// Order files put to the reader: each refusal with its place, each letter, the smallest and the largest order.
#![tactic(auto)]

#[cfg(test)]
mod tests;

use arrayvec::ArrayVec;
use board::Board;
use board::fault::Fault;
use orderfile::read;
use pair_board::PairBoard;
use pair_board::entry::BLANK;
use records::LONGEST_FILE;
use tasks::table::TaskTable;

// Two tasks on two cores of capacity 3, and three needs of 3.
pub const SAMPLE: [u8; 69] = [
    5, 0, 1, 0, 0x65, 2, 2, 5, 0, 2, 0, 0, 3, 0, 5, 0, 2, 0, 1, 3, 0, 7, 0, 3, 0, 0, 1, 0x62, 0x75,
    0x73, 7, 0, 3, 0, 1, 1, 0x6C, 0x6F, 0x67, 6, 0, 4, 0, 0, 0, 3, 0, 6, 0, 4, 0, 1, 0, 3, 0, 6, 0,
    4, 0, 1, 1, 3, 0, 4, 0, 6, 0, 8, 0,
];

// What a call gave, or the number of its refusal with the place.
pub fn told<T>(answer: Result<T, Fault>) -> Result<T, (u8, usize)> {
    answer.map_err(|fault| (fault.number(), fault.place))
}

// Reads the file onto a new board of 2 tasks and 2 cores with room for 3 pairs.
pub fn told_of(file: &[u8]) -> Result<u8, (u8, usize)> {
    let mut entries = [BLANK; 3];
    let mut board = PairBoard::make(2, 2, &mut entries);
    let mut tasks = TaskTable::new();
    told(read(file, &mut board, &mut tasks))
}

// The sample with one byte changed, and what it is told.
#[derive(Clone, Copy)]
pub struct Change {
    pub at: usize,
    pub byte: u8,
    pub told: Result<u8, (u8, usize)>,
}

impl Change {
    fn file(self) -> [u8; 69] {
        let mut file = SAMPLE;
        if self.at < file.len() {
            file[self.at] = self.byte;
        }
        file
    }
}

// One byte is changed, and the file is accepted with this letter.
const fn accepted(at: usize, byte: u8, letter: u8) -> Change {
    Change {
        at,
        byte,
        told: Ok(letter),
    }
}

// One byte is changed, and the file is refused with this number at this place.
const fn refused(at: usize, byte: u8, number: u8, place: usize) -> Change {
    Change {
        at,
        byte,
        told: Err((number, place)),
    }
}

// The first change that is told something else.
pub fn first_surprise(changes: &[Change]) -> Option<usize> {
    changes
        .iter()
        .position(|change| told_of(&change.file()) != change.told)
}

// One byte more than any order has.
const ROOM: usize = LONGEST_FILE + 1;

// An order file that is put together byte by byte. It lies on no heap, so none has to be had for it.
pub type Draft = ArrayVec<u8, ROOM>;

// Adds the bytes, as far as there is room.
fn put(file: &mut Draft, bytes: &[u8]) {
    for byte in bytes {
        let _ = file.try_push(*byte);
    }
}

// A record of the kind for each pair of 64 tasks and 16 cores.
fn put_pairs(file: &mut Draft, kind: u8, low: u8, high: u8) {
    for task in 0..64 {
        for core in 0..16 {
            put(file, &[6, 0, kind, 0, task, core, low, high]);
        }
    }
}

// The largest order: 64 tasks with names of 12 bytes, 16 cores, and a need and slots for each pair.
pub fn largest_file() -> Draft {
    let mut file = Draft::new();
    put(&mut file, &[5, 0, 1, 0, 0x77, 64, 16]);
    for core in 0..16 {
        put(&mut file, &[5, 0, 2, 0, core, 0xE8, 3]);
    }
    for task in 0..64 {
        put(&mut file, &[16, 0, 3, 0, task, 100]);
        put(&mut file, b"task-------");
        put(&mut file, &[0x21 + task]);
    }
    put_pairs(&mut file, 4, 0xE8, 3);
    put_pairs(&mut file, 5, 15, 0);
    put(&mut file, &[4, 0, 6, 0, 0x51, 8]);
    file
}
