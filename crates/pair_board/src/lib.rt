// A board that lies in a lent list of entries, one for each pair of a task and a core with a need; the capacities stand in the board itself.
#![tactic(auto)]

ghost use Rattle.std.specs.Prelude.{◌≡◌, ◌^◌, ◌<◌, ◌≤◌, length, MatchOption};
ghost use Rattle.board.specs.Outcomes.{checked};
ghost use Rattle.board.specs.Boards.{Good};
ghost use Rattle.pair_board.specs.Entries.{Absent, At, slots_of};
ghost use Rattle.pair_board.specs.Pairs.{pair_fits, Made, pairs_of, pair_build};

pub mod entry;

use board::fault::{Fault, Refusal};
use board::{Board, MOST_CORES, MOST_SLOTS, MOST_TASKS};
use entry::{BLANK, Entry};

// How many entries the largest board can use.
pub const MOST_ENTRIES: usize = MOST_TASKS * MOST_CORES;

// The entries in use come first. Their number stands beside the list, since the list is lent and holds more.
#[derive(Drop)]
pub struct PairBoard<'a> {
    tasks: usize,
    cores: usize,
    used: usize,
    capacities: [u16; MOST_CORES],
    entries: &'a mut [Entry],
}

impl<'a> PairBoard<'a> {
    // Tells whether `make` can make a board of n tasks and m cores there.
    pub fn check(n: usize, m: usize, entries: &[Entry]) -> Result<(), Fault>
        ensures { result ≡ checked (pair_fits n m (length entries.now)) }
    {
        if board::sizes_allowed(n, m) && 1 <= entries.len() {
            Ok(())
        } else {
            Err(Refusal::CannotBeMade.at(0))
        }
    }

    // A clear board; where the check refuses, the empty board. No entry is touched before a need is set.
    pub fn make(n: usize, m: usize, entries: &'a mut [Entry]) -> PairBoard<'a>
        ensures { Made n m entries.entry result }
    {
        let (tasks, cores) = if PairBoard::check(n, m, entries).is_err() {
            (0, 0)
        } else {
            (n, m)
        };
        PairBoard {
            tasks,
            cores,
            used: 0,
            capacities: [0; MOST_CORES],
            entries,
        }
    }
}

// The slots that these entries hold of a core.
fn slots_of(entries: &[Entry], core: usize) -> u32
    requires { slots_of entries.now core < 2 ^ 32 }
    ensures { result ≡ slots_of entries.now core }
{
    let mut slots = 0;
    for entry in entries {
        if entry.core as usize == core {
            slots += entry.held as u32;
        }
    }
    slots
}

impl PairBoard<'_> {
    // Where the pair's entry is.
    fn find(&self, task: usize, core: usize) -> Option<usize>
        requires { self.now.used ≤ length self.now.entries.now }
        ensures { MatchOption result (Absent self.now.entries.now self.now.used task core) (λ at. At self.now.entries.now self.now.used task core at) }
    {
        // Where every pair has a need, and they came in order, the entry is here.
        let place = task.min(MOST_TASKS) * self.cores.min(MOST_CORES) + core.min(MOST_CORES);
        let entries = &self.entries[..self.used];
        if place < self.used && entries[place].is_for(task, core) {
            return Some(place);
        }
        entries.iter().position(|entry| entry.is_for(task, core))
    }

    // What the pair's entry says of need and slots; nothing of either where it has none.
    fn entry_for(&self, task: usize, core: usize) -> Entry
        requires { Good pair_build self.now }
        ensures need { result.need ≡ (pairs_of self.now).need task core }
        ensures held { result.held ≡ (pairs_of self.now).held task core }
    {
        self.find(task, core).map_or(BLANK, |at| self.entries[at])
    }
}

impl<'a> Board for PairBoard<'a> {
    ghost build = { pair_build };

    fn tasks(&self) -> usize {
        self.tasks
    }

    fn cores(&self) -> usize {
        self.cores
    }

    fn capacity(&self, core: usize) -> u16 {
        if core < self.cores {
            self.capacities[core]
        } else {
            0
        }
    }

    fn need(&self, task: usize, core: usize) -> u16 {
        self.entry_for(task, core).need
    }

    fn held(&self, task: usize, core: usize) -> u16 {
        self.entry_for(task, core).held
    }

    fn greatest_pairs(&self) -> usize {
        self.entries.len().min(self.tasks * self.cores)
    }

    fn greatest_capacity(&self, core: usize) -> u16 {
        if core < self.cores { MOST_SLOTS } else { 0 }
    }

    fn set_need(&mut self, task: usize, core: usize, need: u16) -> Result<(), Fault> {
        self.test_need(task, core, need)?;
        match (self.find(task, core), need) {
            (Some(at), 0) => {
                // The last entry in use fills the gap.
                let last = self.used - 1;
                self.entries[at] = self.entries[last];
                self.used = last;
            }
            (Some(at), _) => self.entries[at].need = need,
            (None, 0) => {}
            (None, _) => {
                self.entries[self.used] = Entry {
                    task: task as u8,
                    core: core as u8,
                    need,
                    held: 0,
                };
                self.used += 1;
            }
        }
        Ok(())
    }

    fn set_held(&mut self, task: usize, core: usize, held: u16) -> Result<(), Fault> {
        self.test_held(task, core, held)?;
        if let Some(at) = self.find(task, core) {
            self.entries[at].held = held;
        }
        Ok(())
    }

    fn set_capacity(&mut self, core: usize, capacity: u16) -> Result<(), Fault> {
        self.test_capacity(core, capacity)?;
        self.capacities[core] = capacity;
        Ok(())
    }

    fn clear(&mut self) {
        self.used = 0;
        self.capacities = [0; MOST_CORES];
    }

    fn pair_count(&self) -> usize {
        self.used
    }

    // One pass over the entries, however many tasks there are.
    fn given(&self, core: usize) -> u32 {
        slots_of(&self.entries[..self.used], core)
    }
}
