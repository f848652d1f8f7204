// The records of an order file, found one after another in the file's own bytes.
#![tactic(auto)]

ghost use Rattle.std.specs.Prelude.{◌≡◌, ◌+◌, ◌<◌, length};
ghost use Rattle.records.specs.Wire.{word_at, length_at};
ghost use Rattle.records.specs.Cuts.{opened, open_of, cut_of, cut_at, place_after, finish_at};

use board::fault::{Fault, Refusal};

pub mod fields;
pub mod kind;

use kind::Kind;

// No order has a longer file: 64 tasks with names of 12 bytes, 16 cores, and a need and slots for each pair.
pub const LONGEST_FILE: usize = 17661;

// One record: its body is a part of the file, its place the file's byte where the record begins.
#[derive(Clone, Copy, Drop)]
pub struct Record<'a> {
    pub kind: Kind,
    pub body: &'a [u8],
    pub place: usize,
}

// Walks over a file from record to record; `at` is the first byte not yet walked over.
#[derive(Drop)]
pub struct Records<'a> {
    file: &'a [u8],
    at: usize,
}

impl<'a> Records<'a> {
    // Stands before the first record, unless the file is longer than any order's.
    pub fn open(file: &'a [u8]) -> Result<Records<'a>, Fault>
        ensures { opened result ≡ open_of file.now }
    {
        if file.len() > LONGEST_FILE {
            return Err(Refusal::FileTooLong.at(0));
        }
        Ok(Records { file, at: 0 })
    }

    // The next record; refused, the position stays where it was.
    pub fn next(&mut self) -> Result<Record<'a>, Fault>
        ensures answer { cut_of result ≡ cut_at self.old.file.now self.old.at }
        ensures file { self.new.file.now ≡ self.old.file.now }
        ensures at { self.new.at ≡ place_after self.old.at (cut_of result) }
    {
        let file = self.file;
        let place = self.at;
        let Some(length) = length_at(file, place) else {
            return Err(Refusal::RecordCutShort.at(place));
        };
        let Ok(kind) = Kind::try_from(word_at(file, place + 2)) else {
            return Err(Refusal::UnknownKind.at(place));
        };
        let end = place + 2 + length;
        self.at = end;
        Ok(Record {
            kind,
            body: &file[place + 4..end],
            place,
        })
    }

    // Nothing may follow the last record.
    pub fn finish(self) -> Result<(), Fault>
        ensures { result ≡ finish_at self.entry.file.now self.entry.at }
    {
        if self.at < self.file.len() {
            return Err(Refusal::BytesAfterEnd.at(self.at));
        }
        Ok(())
    }
}

// The 16-bit number in two bytes, the low one first.
fn word_at(bytes: &[u8], at: usize) -> u16
    requires { at + 1 < length bytes.now }
    ensures { result ≡ word_at bytes.now at }
{
    u16::from_le_bytes([bytes[at], bytes[at + 1]])
}

// How many bytes follow the length, if it has room for a kind and the file has them all.
fn length_at(file: &[u8], at: usize) -> Option<usize>
    ensures { result ≡ length_at file.now at }
{
    let left = file.len().saturating_sub(at);
    if left < 2 {
        return None;
    }
    let length = word_at(file, at) as usize;
    if length < 2 || left - 2 < length {
        return None;
    }
    Some(length)
}
