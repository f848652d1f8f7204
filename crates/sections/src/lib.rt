// Which records may follow one another in an order file, and which numbers they may have.
#![tactic(auto)]

ghost use Rattle.std.specs.Prelude.{◌≡◌};
ghost use Rattle.records.specs.Cuts.{plain};
ghost use Rattle.records.specs.Fields.{task_seen};
ghost use Rattle.sections.specs.Letters.{head_test};
ghost use Rattle.sections.specs.Turns.{start, head_told, core_told, task_told, pair_told, end_told, head_left, core_left, task_left, pair_left, end_left, is_ended};
ghost use Rattle.sections.specs.Lines.{line_of, line_left, said_of};

use board::fault::Refusal;
use board::{MOST_SLOTS, sizes_allowed};
use records::Record;
use records::fields::{CoreLine, HeadLine, PairLine, TaskLine, record_count};
use records::kind::Kind;

pub mod letter;
pub mod state;

use letter::Sharing;
use state::{Line, Pair, Reader, Section};

// The head's letter and sizes, if an order can have them.
pub fn head_fields(body: &[u8]) -> Result<HeadLine, Refusal>
    ensures { result ≡ head_test body.now }
{
    let head = HeadLine::try_from(body)?;
    Sharing::try_from(head.letter)?;
    if !sizes_allowed(head.tasks as usize, head.cores as usize) {
        return Err(Refusal::ValueOutOfBounds);
    }
    Ok(head)
}

impl Reader {
    // Before the first record of a file that is to fill a board of these sizes.
    pub fn new(tasks: usize, cores: usize) -> Reader
        ensures { result ≡ start tasks cores }
    {
        Reader {
            section: Section::Head,
            letter: 0,
            tasks,
            cores,
            core: 0,
            task: 0,
            last: None,
        }
    }

    pub fn ended(&self) -> bool
        ensures { result ≡ is_ended self.now.section }
    {
        self.section == Section::Ended
    }

    // What the record says, if its kind may stand here and its numbers are in turn and in bounds; `seen` records stand before it.
    pub fn line<'a>(&mut self, found: Record<'a>, seen: usize) -> Result<Line<'a>, Refusal>
        ensures told { said_of result ≡ line_of self.old seen (plain found.entry) }
        ensures left { self.new ≡ line_left self.old seen (plain found.entry) }
    {
        match (self.section, found.kind) {
            (Section::Head, Kind::Head) => {
                self.head(found.body)?;
                Ok(Line::Head)
            }
            (Section::Cores, Kind::Core) => Ok(Line::Core(self.core(found.body)?)),
            (Section::Tasks, Kind::Task) => Ok(Line::Task(self.task(found.body)?)),
            (Section::Needs, Kind::Need) => Ok(Line::Need(self.pair(found.body)?)),
            (Section::Slots, Kind::Slots) => Ok(Line::Slots(self.pair(found.body)?)),
            (Section::Needs, Kind::Slots) => {
                self.section = Section::Slots;
                self.last = None;
                Ok(Line::Slots(self.pair(found.body)?))
            }
            (Section::Needs | Section::Slots, Kind::End) => {
                self.end(found.body, seen)?;
                Ok(Line::End)
            }
            _ => Err(Refusal::KindOutOfTurn),
        }
    }

    fn head(&mut self, body: &[u8]) -> Result<(), Refusal>
        ensures told { result ≡ head_told self.old body.now }
        ensures left { self.new ≡ head_left self.old body.now }
    {
        let head = head_fields(body)?;
        if head.tasks as usize != self.tasks || head.cores as usize != self.cores {
            return Err(Refusal::SizesDiffer);
        }
        self.letter = head.letter;
        self.section = Section::Cores;
        Ok(())
    }

    // The cores come in the order of their numbers, and the tasks after the last of them.
    fn core(&mut self, body: &[u8]) -> Result<CoreLine, Refusal>
        ensures told { result ≡ core_told self.old body.now }
        ensures left { self.new ≡ core_left self.old body.now }
    {
        let line = CoreLine::try_from(body)?;
        if line.core as usize != self.core {
            return Err(Refusal::NumberOutOfTurn);
        }
        if line.capacity > MOST_SLOTS {
            return Err(Refusal::ValueOutOfBounds);
        }
        self.core = line.core as usize + 1;
        if self.core == self.cores {
            self.section = Section::Tasks;
        }
        Ok(line)
    }

    // The tasks come in the order of their numbers, and the needs after the last of them.
    fn task<'a>(&mut self, body: &'a [u8]) -> Result<TaskLine<'a>, Refusal>
        ensures told { task_seen result ≡ task_told self.old body.now }
        ensures left { self.new ≡ task_left self.old body.now }
    {
        let line = TaskLine::try_from(body)?;
        if line.task as usize != self.task {
            return Err(Refusal::NumberOutOfTurn);
        }
        self.task = line.task as usize + 1;
        if self.task == self.tasks {
            self.section = Section::Needs;
        }
        Ok(line)
    }

    // Pairs rise by task, then by core, in their section.
    fn pair(&mut self, body: &[u8]) -> Result<PairLine, Refusal>
        ensures told { result ≡ pair_told self.old body.now }
        ensures left { self.new ≡ pair_left self.old body.now }
    {
        let line = PairLine::try_from(body)?;
        let pair = Pair {
            task: line.task,
            core: line.core,
        };
        if line.task as usize >= self.tasks
            || line.core as usize >= self.cores
            || self.last.is_some_and(|last| pair <= last)
        {
            return Err(Refusal::NumberOutOfTurn);
        }
        if !(1..=MOST_SLOTS).contains(&line.amount) {
            return Err(Refusal::ValueOutOfBounds);
        }
        self.last = Some(pair);
        Ok(line)
    }

    fn end(&mut self, body: &[u8], seen: usize) -> Result<(), Refusal>
        ensures told { result ≡ end_told seen body.now }
        ensures left { self.new ≡ end_left self.old seen body.now }
    {
        if record_count(body)? as usize != seen {
            return Err(Refusal::WrongCount);
        }
        self.section = Section::Ended;
        Ok(())
    }
}
