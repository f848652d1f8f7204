// Two runs under the even rule, on boards of different builds and with different histories that end with the same numbers:
// prints what each call was told, the totals after it, and the judge's verdict on both ends.
#![tactic(auto)]

use board::fault::Fault;
use board::{MOST_CORES, MOST_TASKS};
use judge::Verdict;
use pair_board::PairBoard;
use pair_board::entry::BLANK;
use plan::runs::{Call, Note};
use routes::Step;
use rules::Even;
use schedule::{Ending, compare_runs};
use std::io;
use table_board::TableBoard;

// Straight to the numbers: capacities 2 and 4, and the needs of three tasks.
const STRAIGHT: [Call; 6] = [
    Call::SetCapacity {
        core: 0,
        capacity: 2,
    },
    Call::SetCapacity {
        core: 1,
        capacity: 4,
    },
    Call::SetNeed {
        task: 0,
        core: 0,
        need: 2,
    },
    Call::SetNeed {
        task: 1,
        core: 0,
        need: 2,
    },
    Call::SetNeed {
        task: 1,
        core: 1,
        need: 4,
    },
    Call::SetNeed {
        task: 2,
        core: 1,
        need: 4,
    },
];

// The same numbers by way of others, with two calls that are refused and a plan that is released in between.
const ROUNDABOUT: [Call; 12] = [
    Call::SetNeed {
        task: 2,
        core: 1,
        need: 9,
    },
    Call::SetCapacity {
        core: 1,
        capacity: 9,
    },
    Call::SetNeed {
        task: 3,
        core: 1,
        need: 1,
    },
    Call::SetNeed {
        task: 1,
        core: 1,
        need: 4,
    },
    Call::SetCapacity {
        core: 0,
        capacity: 1001,
    },
    Call::SetCapacity {
        core: 0,
        capacity: 2,
    },
    Call::Release,
    Call::Reopen,
    Call::SetNeed {
        task: 1,
        core: 0,
        need: 2,
    },
    Call::SetNeed {
        task: 2,
        core: 1,
        need: 4,
    },
    Call::SetCapacity {
        core: 1,
        capacity: 4,
    },
    Call::SetNeed {
        task: 0,
        core: 0,
        need: 2,
    },
];

fn print_notes(rt: &HostRuntime, notes: &[Note]) -> io::Result<()> {
    for note in notes {
        let [first, second, third, ..] = note.totals;
        match note.answer {
            Ok(()) => println!(rt; "taken, totals {first} {second} {third}")?,
            // The number alone: a place is 0 here.
            Err(fault) => {
                let number = fault.number();
                println!(rt; "refused {number}, totals {first} {second} {third}")?
            }
        }
    }
    Ok(())
}

fn print_verdict(rt: &HostRuntime, verdict: Result<Verdict, Fault>) -> io::Result<()> {
    match verdict {
        Ok(Verdict::Passed) => println!(rt; "passed"),
        Ok(Verdict::Free { core, task }) => println!(rt;
            "core {core} has a free slot that task {task} needs"
        ),
        Ok(Verdict::Route { steps, loser }) => println!(rt;
            "a route of {steps} steps from task {loser}"
        ),
        Err(fault) => {
            let number = fault.number();
            println!(rt; "refused {number}")
        }
    }
}

fn print_ending(rt: &HostRuntime, notes: &[Note], ending: Ending) -> io::Result<()> {
    if ending.run.is_err() {
        return println!(rt; "not played");
    }
    print_notes(rt, notes)?;
    print_verdict(rt, ending.verdict)
}

fn main(rt: HostRuntime) -> io::Result<()> {
    let mut numbers = [0; 14];
    let mut entries = [BLANK; 4];
    let mut table = TableBoard::make(3, 2, &mut numbers);
    let mut pairs = PairBoard::make(3, 2, &mut entries);
    let blank = Note {
        answer: Ok(()),
        totals: [0; MOST_TASKS],
    };
    let mut straight = [blank; 6];
    let mut roundabout = [blank; 12];
    let mut first_route = [Step { task: 0, core: 0 }; MOST_CORES];
    let mut second_route = [Step { task: 0, core: 0 }; MOST_CORES];
    let ends = compare_runs(
        &mut table,
        &mut pairs,
        Even,
        &STRAIGHT,
        &ROUNDABOUT,
        &mut straight,
        &mut roundabout,
        &mut first_route,
        &mut second_route,
    );
    println!(rt; "straight, on a table board")?;
    print_ending(&rt, &straight, ends.first)?;
    println!(rt; "roundabout, on a pair board")?;
    print_ending(&rt, &roundabout, ends.second)
}
