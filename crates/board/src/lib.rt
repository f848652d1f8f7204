// The seam between planning and memory: what every board answers, which changes it takes, and which it refuses.
#![tactic(auto)]

ghost use Rattle.std.specs.Prelude.{◌≡◌};
ghost use Rattle.board.specs.Meaning.{given_at, free_at, free_slots, total_of, whole_need_of, pair_count, has_place, sizes_allowed};
ghost use Rattle.board.specs.Outcomes.{answered, set_need, set_held, set_capacity};
ghost use Rattle.board.specs.Boards.{Build, Good, Changed, Cleared};

pub mod fault;

use fault::{Fault, Refusal};

pub const MOST_TASKS: usize = 64;

pub const MOST_CORES: usize = 16;
// The greatest need, and the most that a board may allow as a capacity.
pub const MOST_SLOTS: u16 = 1000;

// Whether a board of n tasks and m cores may be made.
pub fn sizes_allowed(n: usize, m: usize) -> bool
    ensures { result ≡ sizes_allowed n m }
{
    (1..=MOST_TASKS).contains(&n) && (1..=MOST_CORES).contains(&m)
}

// A board holds for each task and core a need and the slots held, and for each core a capacity.
// Each call but `tasks` and `cores` asks that the board is good, and each change leaves it so.
pub trait Board {
    // How a board of this build is read: what it says, what its memory must be like, and what no call changes.
    ghost build: { Build Self };

    fn tasks(&self) -> usize
        ensures { result ≡ (build.meaning self.now).tasks };

    fn cores(&self) -> usize
        ensures { result ≡ (build.meaning self.now).cores };

    fn capacity(&self, core: usize) -> u16
        requires { Good build self.now }
        ensures { result ≡ (build.meaning self.now).capacity core };

    fn need(&self, task: usize, core: usize) -> u16
        requires { Good build self.now }
        ensures { result ≡ (build.meaning self.now).need task core };

    fn held(&self, task: usize, core: usize) -> u16
        requires { Good build self.now }
        ensures { result ≡ (build.meaning self.now).held task core };

    fn greatest_pairs(&self) -> usize
        requires { Good build self.now }
        ensures { result ≡ (build.meaning self.now).greatest_pairs };

    fn greatest_capacity(&self, core: usize) -> u16
        requires { Good build self.now }
        ensures { result ≡ (build.meaning self.now).greatest_capacity core };

    fn set_need(&mut self, task: usize, core: usize, need: u16) -> Result<(), Fault>
        requires { Good build self.old }
        ensures { Changed build self.old self.new (set_need (build.meaning self.old) task core need) result };

    fn set_held(&mut self, task: usize, core: usize, held: u16) -> Result<(), Fault>
        requires { Good build self.old }
        ensures { Changed build self.old self.new (set_held (build.meaning self.old) task core held) result };

    fn set_capacity(&mut self, core: usize, capacity: u16) -> Result<(), Fault>
        requires { Good build self.old }
        ensures { Changed build self.old self.new (set_capacity (build.meaning self.old) core capacity) result };

    // All needs, slots and capacities become 0.
    fn clear(&mut self)
        requires { Good build self.old }
        ensures { Cleared build self.old self.new };

    // The slots that all tasks hold of a core. Every sum here is taken from the board: none is kept beside it. Each has its own
    // loop, since of a sum over a question that is passed in the bound is not proved.
    fn given(&self, core: usize) -> u32
        requires { Good build self.now }
        ensures { result ≡ given_at (build.meaning self.now) core }
    {
        let mut given = 0;
        for task in 0..self.tasks() {
            given += self.held(task, core) as u32;
        }
        given
    }

    // What a core could still give.
    fn free(&self, core: usize) -> u32
        requires { Good build self.now }
        ensures { result ≡ free_at (build.meaning self.now) core }
    {
        self.capacity(core) as u32 - self.given(core)
    }

    // What all cores could still give.
    fn free_slots(&self) -> u32
        requires { Good build self.now }
        ensures { result ≡ free_slots (build.meaning self.now) }
    {
        let mut free = 0;
        for core in 0..self.cores() {
            free += self.free(core);
        }
        free
    }

    // What a task holds over all cores.
    fn total(&self, task: usize) -> u32
        requires { Good build self.now }
        ensures { result ≡ total_of (build.meaning self.now) task }
    {
        let mut total = 0;
        for core in 0..self.cores() {
            total += self.held(task, core) as u32;
        }
        total
    }

    // What a task needs over all cores.
    fn whole_need(&self, task: usize) -> u32
        requires { Good build self.now }
        ensures { result ≡ whole_need_of (build.meaning self.now) task }
    {
        let mut whole = 0;
        for core in 0..self.cores() {
            whole += self.need(task, core) as u32;
        }
        whole
    }

    // How many pairs of a task and a core have a need.
    fn pair_count(&self) -> usize
        requires { Good build self.now }
        ensures { result ≡ pair_count (build.meaning self.now) }
    {
        let mut count = 0;
        for task in 0..self.tasks() {
            for core in 0..self.cores() {
                if self.need(task, core) > 0 {
                    count += 1;
                }
            }
        }
        count
    }

    // Whether the pair can have a need.
    fn has_place(&self, task: usize, core: usize) -> bool
        requires { Good build self.now }
        ensures { result ≡ has_place (build.meaning self.now) task core }
    {
        self.need(task, core) > 0 || self.pair_count() < self.greatest_pairs()
    }

    // What `set_need` would answer; the board stays as it is. The tests and their order are the same for every board.
    fn test_need(&self, task: usize, core: usize, need: u16) -> Result<(), Fault>
        requires { Good build self.now }
        ensures { result ≡ answered (set_need (build.meaning self.now) task core need) }
    {
        if task >= self.tasks() || core >= self.cores() {
            return Err(Refusal::NoSuchTaskOrCore.at(0));
        }
        if need > MOST_SLOTS {
            return Err(Refusal::AmountTooLarge.at(0));
        }
        if need < self.held(task, core) {
            return Err(Refusal::SlotsOverNeed.at(0));
        }
        if need > 0 && !self.has_place(task, core) {
            return Err(Refusal::NoPairLeft.at(0));
        }
        Ok(())
    }

    // What `set_held` would answer.
    fn test_held(&self, task: usize, core: usize, held: u16) -> Result<(), Fault>
        requires { Good build self.now }
        ensures { result ≡ answered (set_held (build.meaning self.now) task core held) }
    {
        if task >= self.tasks() || core >= self.cores() {
            return Err(Refusal::NoSuchTaskOrCore.at(0));
        }
        if held > self.need(task, core) {
            return Err(Refusal::SlotsOverNeed.at(0));
        }
        let others = self.given(core) - self.held(task, core) as u32;
        if others + held as u32 > self.capacity(core) as u32 {
            return Err(Refusal::CoreOverCapacity.at(0));
        }
        Ok(())
    }

    // What `set_capacity` would answer.
    fn test_capacity(&self, core: usize, capacity: u16) -> Result<(), Fault>
        requires { Good build self.now }
        ensures { result ≡ answered (set_capacity (build.meaning self.now) core capacity) }
    {
        if core >= self.cores() {
            return Err(Refusal::NoSuchTaskOrCore.at(0));
        }
        if capacity > self.greatest_capacity(core) {
            return Err(Refusal::AmountTooLarge.at(0));
        }
        if (capacity as u32) < self.given(core) {
            return Err(Refusal::CoreOverCapacity.at(0));
        }
        Ok(())
    }
}
