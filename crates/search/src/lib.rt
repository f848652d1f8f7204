// The search for a route that makes the plan fairer: breadth first over tasks, each core opened once.
#![tactic(auto)]

ghost use Rattle.std.specs.Prelude.{◌≡◌, ◌+◌, ◌<◌, ◌≤◌, length};
ghost use Rattle.board.specs.Meaning.{most_tasks, most_cores};
ghost use Rattle.board.specs.Boards.{Good};
ghost use Rattle.search.specs.Gains.{most_total, share_on, gains_from, as_urgent, NoneFreeOn, SafeFlags};
ghost use Rattle.search.specs.Chains.{Chain, RestSame};
ghost use Rattle.search.specs.Founds.{Searched};
ghost use Rattle.search.specs.Trails.{Linked, found_count, open_count, task_at, through_at, opening_of, reached, entered, empty};
ghost use Rattle.search.specs.Layers.{OpenersTo};
ghost use Rattle.search.specs.Searches.{MayOpen, Opened, Complete, Spread, InVain, Sought, Spoken};

use arrayvec::ArrayVec;
use board::{Board, MOST_CORES, MOST_SLOTS, MOST_TASKS};
use fairness::Share;
use routes::Step;
use rules::Rule;

// The most slots that a task can hold of all cores.
pub const MOST_TOTAL: u32 = MOST_CORES as u32 * MOST_SLOTS as u32;

// A route that makes the plan fairer: who gains a slot, who loses it, and in how many steps.
#[derive(Clone, Copy, PartialEq, Eq, Debug)]
pub struct Found {
    pub gainer: usize,
    pub loser: usize,
    pub steps: usize,
}

// A task found, and the opening through which it was found. The gainer, the first of all, has none, and 0 stands there. Links
// are places in the lists, since nothing here uses the heap.
#[derive(Clone, Copy, Default, Drop)]
struct Seen {
    task: usize,
    opening: usize,
}

// A core opened, and the place of the task that opened it.
#[derive(Clone, Copy, Default, Drop)]
struct Opening {
    core: usize,
    opener: usize,
}

// What a search has come to: the tasks found and the cores opened, each in order.
#[derive(Drop)]
struct Search {
    seen: ArrayVec<Seen, MOST_TASKS>,
    // By task, so that no list is searched for it.
    found: [bool; MOST_TASKS],
    openings: ArrayVec<Opening, MOST_CORES>,
    // By core, likewise.
    opened: [bool; MOST_CORES],
}

impl Search {
    fn new() -> Search
        ensures { result ≡ empty }
    {
        Search {
            seen: ArrayVec::new(),
            found: [false; MOST_TASKS],
            openings: ArrayVec::new(),
            opened: [false; MOST_CORES],
        }
    }

    fn reach(&mut self, task: usize, opening: usize)
        requires { (found_count self.old < most_tasks) × (task < most_tasks) }
        ensures { self.new ≡ reached self.old task opening }
    {
        self.seen.push(Seen { task, opening });
        self.found[task] = true;
    }

    // The task found at the place.
    fn task_at(&self, place: usize) -> usize
        requires { place < found_count self.now }
        ensures { result ≡ task_at self.now place }
    {
        self.seen[place].task
    }

    // The opening through which the task at the place was found.
    fn opening_of(&self, place: usize) -> Opening
        requires { (place < found_count self.now) × (through_at self.now place < open_count self.now) }
        ensures { result ≡ opening_of self.now place }
    {
        self.openings[self.seen[place].opening]
    }

    fn enter(&mut self, opener: usize, core: usize)
        requires { (open_count self.old < most_cores) × (core < most_cores) }
        ensures { self.new ≡ entered self.old opener core }
    {
        self.openings.push(Opening { core, opener });
        self.opened[core] = true;
    }
}

// The task at the place, which still needs slots of the core, opens it: each task that holds one of them is found. Here and
// below tasks and cores are gone over by number, as a board is asked, and the flags with them.
fn open_core<B: Board>(board: &B, search: &mut Search, place: usize, core: usize)
    requires good { Good B.build board.now }
    requires start { MayOpen (B.build.meaning board.now) search.old place core }
    ensures { Opened (B.build.meaning board.now) search.old search.new place core }
{
    let opening = search.openings.len();
    search.enter(place, core);
    for task in 0..board.tasks() {
        if !search.found[task] && board.held(task, core) > 0 {
            search.reach(task, opening);
        }
    }
}

// The task at the place opens each core of which it still needs slots.
fn open_wanted<B: Board>(board: &B, search: &mut Search, place: usize)
    requires good { Good B.build board.now }
    requires complete { Complete (B.build.meaning board.now) search.old }
    requires place { place < found_count search.old }
    requires latest { OpenersTo search.old place }
    ensures { Spread (B.build.meaning board.now) search.old search.new place (B.build.meaning board.now).cores }
{
    let task = search.task_at(place);
    for core in 0..board.cores() {
        if !search.opened[core] && board.held(task, core) < board.need(task, core) {
            open_core(board, search, place, core);
        }
    }
}

// What a rule is told of the task.
pub fn share_of<B: Board>(board: &B, task: usize) -> Share
    requires { Good B.build board.now }
    ensures is { result ≡ share_on (B.build.meaning board.now) task }
    ensures small { result.total ≤ most_total }
{
    Share {
        task,
        whole_need: board.whole_need(task),
        total: board.total(task),
    }
}

// Whether a slot that goes from the loser to the gainer makes a plan fairer.
pub fn should_gain<R: Rule>(rule: &R, gainer: Share, loser: Share) -> bool
    requires { gainer.total ≤ most_total }
    ensures { result ≡ gains_from (R.order rule.now) gainer loser }
{
    if loser.total == 0 {
        return false;
    }
    let without = Share {
        total: loser.total - 1,
        ..loser
    };
    let more = Share {
        total: gainer.total + 1,
        ..gainer
    };
    rule.compare(gainer, without)
        .then_with(|| rule.compare(loser, more))
        .is_lt()
}

// Whether the first task is at least as urgent as the second: then it should gain whatever the second should.
fn as_urgent<R: Rule>(rule: &R, first: Share, second: Share) -> bool
    requires { (first.total ≤ most_total) × (second.total ≤ most_total) }
    ensures { result ≡ as_urgent (R.order rule.now) first second }
{
    let first_more = Share {
        total: first.total + 1,
        ..first
    };
    let second_more = Share {
        total: second.total + 1,
        ..second
    };
    rule.compare(first, second)
        .then_with(|| rule.compare(second_more, first_more))
        .is_le()
}

// The place in the search of the first task found that should lose a slot to the gainer. The board and the rule stay parameters
// here and below: what a board must be is asked at each call, so a struct of the two would leave out no clause. The lent list
// and the flags of tasks that need no search are two lifetimes, and each call says what it leaves in them.
fn search_from<B: Board, R: Rule>(
    board: &B,
    rule: &R,
    gainer: usize,
    search: &mut Search,
) -> Option<usize>
    requires good { Good B.build board.now }
    requires gainer { gainer < (B.build.meaning board.now).tasks }
    requires fresh { search.old ≡ empty }
    ensures sought { Sought (R.order rule.now) (B.build.meaning board.now) gainer search.new result }
    ensures spoken { Spoken (R.order rule.now) (B.build.meaning board.now) gainer search.new result }
{
    search.reach(gainer, 0);
    let share = share_of(board, gainer);
    // An index, since the list grows while it is walked.
    let mut head = 0;
    while head < search.seen.len() {
        if should_gain(rule, share, share_of(board, search.task_at(head))) {
            return Some(head);
        }
        open_wanted(board, search, head);
        head += 1;
    }
    None
}

// Writes the route by which the search came to the place, first the gainer's step, and says how many steps it has.
fn write_route(search: &Search, place: usize, steps: &mut [Step]) -> usize
    requires linked { Linked search.now }
    requires place { place < found_count search.now }
    requires room { most_cores ≤ length steps.old }
    ensures chain { Chain search.now place steps.new result }
    ensures few { result ≤ most_cores }
    ensures rest { RestSame steps.old steps.new result }
{
    if place == 0 {
        return 0;
    }
    let opening = search.opening_of(place);
    let count = write_route(search, opening.opener, steps);
    steps[count] = Step {
        task: search.task_at(opening.opener),
        core: opening.core,
    };
    count + 1
}

// Flags the tasks that a search from the gainer has found in vain, as far as they are no more urgent than it.
fn flag_safe<B: Board, R: Rule>(
    board: &B,
    rule: &R,
    gainer: usize,
    search: &Search,
    safe: &mut [bool; MOST_TASKS],
)
    requires good { Good B.build board.now }
    requires vain { NoneFreeOn (B.build.meaning board.now) → InVain (R.order rule.now) (B.build.meaning board.now) gainer search.now }
    requires flags { SafeFlags (R.order rule.now) (B.build.meaning board.now) safe.old }
    ensures { SafeFlags (R.order rule.now) (B.build.meaning board.now) safe.new }
{
    let share = share_of(board, gainer);
    for task in 0..board.tasks() {
        if search.found[task] && as_urgent(rule, share, share_of(board, task)) {
            safe[task] = true;
        }
    }
}

// A route from the gainer. In vain, it flags the tasks for which that search has spoken too.
fn route_from<B: Board, R: Rule>(
    board: &B,
    rule: &R,
    gainer: usize,
    steps: &mut [Step],
    safe: &mut [bool; MOST_TASKS],
) -> Option<Found>
    requires good { Good B.build board.now }
    requires gainer { gainer < (B.build.meaning board.now).tasks }
    requires room { most_cores ≤ length steps.old }
    requires flags { SafeFlags (R.order rule.now) (B.build.meaning board.now) safe.old }
    ensures searched { Searched (R.order rule.now) (B.build.meaning board.now) gainer (gainer + 1) steps.old steps.new result }
    ensures flags { SafeFlags (R.order rule.now) (B.build.meaning board.now) safe.new }
{
    let mut search = Search::new();
    let Some(place) = search_from(board, rule, gainer, &mut search) else {
        flag_safe(board, rule, gainer, &search, safe);
        return None;
    };
    let count = write_route(&search, place, steps);
    Some(Found {
        gainer,
        loser: search.task_at(place),
        steps: count,
    })
}

// A route from the first of the tasks `from` to `to - 1` that should gain a slot.
fn route_among<B: Board, R: Rule>(
    board: &B,
    rule: &R,
    from: usize,
    to: usize,
    steps: &mut [Step],
    safe: &mut [bool; MOST_TASKS],
) -> Option<Found>
    requires good { Good B.build board.now }
    requires tasks { to ≤ (B.build.meaning board.now).tasks }
    requires room { most_cores ≤ length steps.old }
    requires flags { SafeFlags (R.order rule.now) (B.build.meaning board.now) safe.old }
    ensures searched { Searched (R.order rule.now) (B.build.meaning board.now) from to steps.old steps.new result }
    ensures flags { SafeFlags (R.order rule.now) (B.build.meaning board.now) safe.new }
{
    for gainer in from..to {
        if safe[gainer] {
            continue;
        }
        if let Some(found) = route_from(board, rule, gainer, steps, safe) {
            return Some(found);
        }
    }
    None
}

// A route by which one slot makes the plan fairer, or none. It asks each task in turn whether it should gain, from `start` on and
// round to it again, and fills the first entries of the list. No route from that gainer to that loser is shorter.
pub fn find_route<B: Board, R: Rule>(
    board: &B,
    rule: &R,
    start: usize,
    steps: &mut [Step],
) -> Option<Found>
    requires good { Good B.build board.now }
    requires room { most_cores ≤ length steps.old }
    ensures { Searched (R.order rule.now) (B.build.meaning board.now) 0 (B.build.meaning board.now).tasks steps.old steps.new result }
{
    let tasks = board.tasks();
    let first = start.min(tasks);
    let mut safe = [false; MOST_TASKS];
    if let Some(found) = route_among(board, rule, first, tasks, steps, &mut safe) {
        return Some(found);
    }
    route_among(board, rule, 0, first, steps, &mut safe)
}
