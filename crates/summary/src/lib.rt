// The report's text: a line for each task, the line of free slots, the line of a refusal.
#![tactic(auto)]

ghost use Rattle.std.specs.Prelude.{◌≡◌, ◌≤◌, ◌+◌, true, ◌++◌, length, sum, IfOk, OnOk, string_bytes};
ghost use Rattle.board.specs.Meaning.{most_tasks};
ghost use Rattle.tasks.specs.Names.{printable_name};
ghost use Rattle.tasks.specs.Table.{rows};
ghost use Rattle.summary.specs.Lines.{tenths as tenths_of, percent, task_line, free_line, report_lines, refusal_line};

use board::MOST_TASKS;
use board::fault::Fault;
use std::alloc::{AllocError, Global};
use std::str;
use tasks::table::TaskTable;

// A total's share of all slots in tenths of a percent, rounded down; 0 where there are no slots.
fn tenths(total: u32, slots: u64) -> u64
    ensures { result ≡ tenths_of total slots }
{
    if slots == 0 {
        0
    } else {
        total as u64 * 1000 / slots
    }
}

// The share as a percentage with one decimal.
fn percent_of(heap: Global, share: u64) -> Result<String, AllocError>
    ensures { IfOk result (λ text. string_bytes text ≡ percent share) }
{
    let whole = share / 10;
    let part = share % 10;
    format!(in heap; "{whole}.{part}%")
}

// What can be printed is text.
fn text_of(name: &[u8]) -> &str
    requires { printable_name name.now ≡ true }
    ensures { result.now ≡ name.now }
{
    str::from_utf8(name).unwrap()
}

// Adds a task's line: its name, its total and its share of the slots of all cores.
fn put_task_line(
    heap: Global,
    text: &mut String,
    name: &[u8],
    total: u32,
    slots: u64,
) -> Result<(), AllocError>
    requires shown { printable_name name.now ≡ true }
    requires short { length name.now ≤ 12 }
    ensures { OnOk result (string_bytes text.new ≡ string_bytes text.old ++ task_line name.now total slots) }
{
    let name = text_of(name);
    let percent = percent_of(heap, tenths(total, slots))?;
    writeln!(text, "{name:<12}{total:>6}{percent:>8}")
}

// Adds the last line: the free slots of all cores.
fn put_free_line(text: &mut String, free: u32) -> Result<(), AllocError>
    ensures { OnOk result (string_bytes text.new ≡ string_bytes text.old ++ free_line free) }
{
    writeln!(text, "{:<12}{free:>6}", "free")
}

// The slots of all cores: those that tasks hold, and those that are free.
fn all_slots(totals: &[u32], free: u32) -> u64
    requires { length totals.now ≤ most_tasks }
    ensures { result ≡ free + sum totals.now }
{
    free as u64 + totals.iter().map(|total| *total as u64).sum::<u64>()
}

// The whole report: the tasks of the table with their totals, then the free slots.
pub fn report_text(
    heap: Global,
    tasks: &TaskTable,
    totals: &[u32; MOST_TASKS],
    free: u32,
) -> Result<String, AllocError>
    ensures { IfOk result (λ text. string_bytes text ≡ report_lines (rows tasks.now) totals.now free) }
{
    let count = tasks.len();
    let slots = all_slots(&totals[..count], free);
    let mut text = String::new(heap);
    for (task, total) in totals[..count].iter().enumerate() {
        put_task_line(heap, &mut text, tasks.name(task), *total, slots)?;
    }
    put_free_line(&mut text, free)?;
    Ok(text)
}

// The one line that a refused file gives.
pub fn refusal_text(heap: Global, fault: Fault) -> Result<String, AllocError>
    ensures { IfOk result (λ text. string_bytes text ≡ refusal_line fault) }
{
    format!(in heap; "{fault}\n")
}
