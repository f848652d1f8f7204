// The lines of a script of calls on a plan, and what each asks for.
#![tactic(auto)]

ghost use Rattle.std.specs.Prelude.{◌≡◌, ◌==◌, Some, position};
ghost use Rattle.script.specs.Lines.{request_of, need_asked, capacity_asked, word_of, rest_of};
ghost use Rattle.script.specs.Numbers.{number_of, with_digit};

use calls::Call;

#[derive(Clone, Copy)]
pub enum Request {
    Play(Call),
    Judge,
}

// What a line asks for; nothing, where it is not understood. Word by word, since of a `match` on byte strings it is not proved.
pub fn request_of(line: &[u8]) -> Option<Request>
    ensures { result ≡ request_of line.now }
{
    let (word, rest) = cut(line);
    if word == b"need".as_slice() {
        return need_asked(rest);
    }
    if word == b"capacity".as_slice() {
        return capacity_asked(rest);
    }
    if line == b"release".as_slice() {
        return Some(Request::Play(Call::Release));
    }
    if line == b"reopen".as_slice() {
        return Some(Request::Play(Call::Reopen));
    }
    if line == b"judge".as_slice() {
        return Some(Request::Judge);
    }
    None
}

// Task, core and need.
fn need_asked(text: &[u8]) -> Option<Request>
    ensures { result ≡ need_asked text.now }
{
    let (task, rest) = cut(text);
    let (core, need) = cut(rest);
    let task = number_of(task)?;
    let core = number_of(core)?;
    let need = number_of(need)?;
    Some(Request::Play(Call::SetNeed {
        task: task as usize,
        core: core as usize,
        need,
    }))
}

// Core and capacity.
fn capacity_asked(text: &[u8]) -> Option<Request>
    ensures { result ≡ capacity_asked text.now }
{
    let (core, capacity) = cut(text);
    let core = number_of(core)?;
    let capacity = number_of(capacity)?;
    Some(Request::Play(Call::SetCapacity {
        core: core as usize,
        capacity,
    }))
}

// The place of the first blank.
fn first_blank(text: &[u8]) -> Option<usize>
    ensures { result ≡ position (λ byte. byte == 32) text.now }
{
    text.iter().position(|byte| *byte == b' ')
}

// What stands before the first blank, and what stands after it.
fn cut(text: &[u8]) -> (&[u8], &[u8])
    ensures word { result.0.now ≡ word_of text.now }
    ensures rest { result.1.now ≡ rest_of text.now }
{
    match first_blank(text) {
        Some(at) => (&text[..at], &text[at + 1..]),
        None => (text, &[]),
    }
}

// The number that decimal digits say, up to 65,535. By a `for`, since of `try_fold` it is
// not proved that it is this fold, and the library's `parse` takes a sign.
fn number_of(word: &[u8]) -> Option<u16>
    ensures { result ≡ number_of word.now }
{
    if word.is_empty() {
        return None;
    }
    let mut number = 0;
    for digit in word {
        number = with_digit(number, *digit)?;
    }
    Some(number)
}

// The number with one more digit behind it.
fn with_digit(number: u16, digit: u8) -> Option<u16>
    ensures { result ≡ with_digit (Some number) digit }
{
    if !digit.is_ascii_digit() {
        return None;
    }
    let tens = number.checked_mul(10)?;
    tens.checked_add((digit - b'0') as u16)
}
