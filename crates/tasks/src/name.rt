// A task's name.
ghost use Rattle.std.specs.Prelude.{◌≡◌, ◌≤◌, true, length, take};
ghost use Rattle.tasks.specs.Names.{printable_name, good_name};

use crate::LONGEST_NAME;
use board::fault::Refusal;

// The first `used` bytes, all of them visible characters, so that the name can stand in a report. An array with a length, since
// a table's entry is copied and a list of fixed capacity is not.
#[derive(Clone, Copy, Drop)]
pub struct Name {
    bytes: [u8; LONGEST_NAME],
    used: u8,
    ghost short: { used ≤ 12 },
    ghost shown: { printable_name (take used bytes) ≡ true },
}

impl Name {
    ghost use Rattle.std.specs.Str.{bytes_eq};
    ghost use Rattle.tasks.specs.NameReads.{name_of};

    // The name of no task.
    pub const NONE: Name = Name {
        bytes: [0; LONGEST_NAME],
        used: 0,
    };

    pub fn as_bytes(&self) -> &[u8]
        ensures name { result.now ≡ name_of self.now }
        ensures short { length result.now ≤ 12 }
        ensures shown { printable_name result.now ≡ true }
    {
        &self.bytes[..self.used as usize]
    }

    pub fn is(&self, bytes: &[u8]) -> bool
        ensures { result ≡ bytes_eq (name_of self.now) bytes.now }
    {
        self.as_bytes() == bytes
    }
}

impl TryFrom<&[u8]> for Name {
    ghost use Rattle.tasks.specs.NameReads.{names_seen, read_name};

    type Error = Refusal;

    ghost try_from_gives = { λ bytes name. names_seen name ≡ read_name bytes.now };

    fn try_from(name: &[u8]) -> Result<Name, Refusal> {
        if !is_name(name) {
            return Err(Refusal::BadName);
        }
        let mut bytes = [0; LONGEST_NAME];
        bytes[..name.len()].copy_from_slice(name);
        Ok(Name {
            bytes,
            used: name.len() as u8,
        })
    }
}

fn is_name(bytes: &[u8]) -> bool
    ensures { result ≡ good_name bytes.now }
{
    (1..=LONGEST_NAME).contains(&bytes.len()) && is_printable(bytes)
}

// A name is made of visible characters alone, so that it can stand in a report.
fn is_printable(bytes: &[u8]) -> bool
    ensures { result ≡ printable_name bytes.now }
{
    bytes.iter().all(u8::is_ascii_graphic)
}
