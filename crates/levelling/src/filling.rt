// Gives out free slots, the most urgent task first. It saves exchanges; that the plan is fairest comes from the improvements
// that follow, so nothing more is promised here than that the order stays.
ghost use Rattle.std.specs.Prelude.{◌<◌, IfSome};
ghost use Rattle.board.specs.Meaning.{most_tasks, most_cores};
ghost use Rattle.board.specs.Boards.{Good, Rearranged};

use board::{Board, MOST_CORES, MOST_TASKS};
use fairness::Share;
use rules::Rule;
use search::{MOST_TOTAL, share_of};

// Each turn gives a slot or finishes a task, so there are never more.
const MOST_TURNS: usize = MOST_TASKS + MOST_TOTAL as usize;

// What is left to give, and to whom.
#[derive(Drop)]
struct Filling {
    // By task: what the rule sees of it, or nothing where it can take no more.
    claims: [Option<Share>; MOST_TASKS],
    // By core: the slots that are free.
    free: [u32; MOST_CORES],
}

impl Filling {
    fn of<B: Board>(board: &B) -> Filling
        requires { Good B.build board.now }
    {
        let mut claims = [None; MOST_TASKS];
        for (task, claim) in claims.iter_mut().enumerate().take(board.tasks()) {
            *claim = Some(share_of(board, task));
        }
        let mut free = [0; MOST_CORES];
        for (core, slots) in free.iter_mut().enumerate().take(board.cores()) {
            *slots = board.free(core);
        }
        Filling { claims, free }
    }

    // The task that stands lowest among those that can take more. By their numbers, since a share is not copied then.
    fn most_urgent<R: Rule>(&self, rule: &R, tasks: usize) -> Option<usize>
        ensures { IfSome result (λ task. task < most_tasks) }
    {
        let mut lowest = 0;
        for task in 1..tasks.min(MOST_TASKS) {
            if self.comes_before(rule, task, lowest) {
                lowest = task;
            }
        }
        self.claims[lowest].map(|_| lowest)
    }

    // Whether the task can take more, and stands below the other or the other can take no more.
    fn comes_before<R: Rule>(&self, rule: &R, task: usize, other: usize) -> bool
        requires { (task < most_tasks) × (other < most_tasks) }
    {
        match (self.claims[task], self.claims[other]) {
            (Some(one), Some(least)) => rule.compare(one, least).is_lt(),
            (Some(_), None) => true,
            (None, _) => false,
        }
    }

    // The slots of the core that are free for the task.
    fn free_for<B: Board>(&self, board: &B, task: usize, core: usize) -> u32
        requires good { Good B.build board.now }
        requires core { core < most_cores }
    {
        if board.held(task, core) < board.need(task, core) {
            self.free[core]
        } else {
            0
        }
    }

    // The core that has most slots free for the task: the first of equals, which the library's maximum would not give.
    fn freest<B: Board>(&self, board: &B, task: usize) -> usize
        requires { Good B.build board.now }
        ensures { result < most_cores }
    {
        let mut freest = 0;
        for core in 1..board.cores() {
            if self.free_for(board, task, core) > self.free_for(board, task, freest) {
                freest = core;
            }
        }
        freest
    }

    // The task takes an even part of what its freest core still has; where it finds nothing free, it is finished.
    fn grant<B: Board>(&mut self, board: &mut B, task: usize)
        requires good { Good B.build board.old }
        requires task { task < most_tasks }
        ensures { Rearranged B.build board.old board.new }
    {
        let core = self.freest(board, task);
        let free = self.free_for(board, task, core);
        if free == 0 {
            self.claims[task] = None;
            return;
        }
        let part = (free / (board.tasks() as u32).max(1)).max(1);
        let taken = take_free(board, task, core, part);
        self.free[core] = free.saturating_sub(taken);
        if let Some(share) = &mut self.claims[task] {
            share.total = share.total.saturating_add(taken);
        }
    }
}

// The task takes what it still needs of the core, as far as that is free, but no more than `most`; answers how many.
fn take_free<B: Board>(board: &mut B, task: usize, core: usize, most: u32) -> u32
    requires { Good B.build board.old }
    ensures { Rearranged B.build board.old board.new }
{
    let held = board.held(task, core);
    let wanted = (board.need(task, core) - held) as u32;
    let taken = wanted.min(most);
    let _ = board.set_held(task, core, held + taken as u16);
    taken
}

pub fn give_out<B: Board, R: Rule>(board: &mut B, rule: &R)
    requires { Good B.build board.old }
    ensures { Rearranged B.build board.old board.new }
{
    let mut filling = Filling::of(board);
    let tasks = board.tasks();
    for _ in 0..MOST_TURNS {
        let Some(task) = filling.most_urgent(rule, tasks) else {
            break;
        };
        filling.grant(board, task);
    }
}
