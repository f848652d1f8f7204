// Order files put to the report: what it prints for each letter, for a refusal, and for the smallest and the largest order.
#![tactic(auto)]

#[cfg(test)]
mod tests;

use reporting::{Report, report_of};
use std::alloc::{AllocError, Global};

// Whether the file is answered with a plan, and just with this text.
fn shows(heap: Global, file: &[u8], text: &str) -> Result<bool, AllocError> {
    Ok(match report_of(heap, file)? {
        Report::Plan(shown) => shown.as_str() == text,
        Report::Refusal(_) => false,
    })
}

// Whether the file is refused, and just with this line.
fn refuses(heap: Global, file: &[u8], line: &str) -> Result<bool, AllocError> {
    Ok(match report_of(heap, file)? {
        Report::Plan(_) => false,
        Report::Refusal(told) => told.as_str() == line,
    })
}

// One core of the capacity, and two tasks, a and b, with weights and needs there.
pub fn two_tasks(letter: u8, capacity: u8, weights: [u8; 2], needs: [u8; 2]) -> [u8; 50] {
    [
        5, 0, 1, 0, letter, 2, 1, 5, 0, 2, 0, 0, capacity, 0, 5, 0, 3, 0, 0, weights[0], b'a', 5,
        0, 3, 0, 1, weights[1], b'b', 6, 0, 4, 0, 0, 0, needs[0], 0, 6, 0, 4, 0, 1, 0, needs[1], 0,
        4, 0, 6, 0, 6, 0,
    ]
}
