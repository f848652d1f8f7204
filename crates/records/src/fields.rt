// The numbers in a record's body, found only where the body has the length of its kind.
ghost use Rattle.std.specs.Prelude.{◌≡◌};
ghost use Rattle.std.specs.Option.{ok_or};
ghost use Rattle.board.specs.declared.fault.Refusal.TheVariants.{WrongLength};
ghost use Rattle.records.specs.Fields.{head_in, core_in, task_in, task_seen, pair_in, count_in};

use board::fault::Refusal;

#[derive(Clone, Copy, Drop)]
pub struct HeadLine {
    pub letter: u8,
    pub tasks: u8,
    pub cores: u8,
}

impl TryFrom<&[u8]> for HeadLine {
    type Error = Refusal;

    ghost try_from_gives = { λ body line. line ≡ ok_or (head_in body.now) WrongLength };

    fn try_from(body: &[u8]) -> Result<HeadLine, Refusal> {
        let &[letter, tasks, cores] = body else {
            return Err(Refusal::WrongLength);
        };
        Ok(HeadLine {
            letter,
            tasks,
            cores,
        })
    }
}

#[derive(Clone, Copy, Drop)]
pub struct CoreLine {
    pub core: u8,
    pub capacity: u16,
}

impl TryFrom<&[u8]> for CoreLine {
    type Error = Refusal;

    ghost try_from_gives = { λ body line. line ≡ ok_or (core_in body.now) WrongLength };

    fn try_from(body: &[u8]) -> Result<CoreLine, Refusal> {
        let &[core, low, high] = body else {
            return Err(Refusal::WrongLength);
        };
        Ok(CoreLine {
            core,
            capacity: u16::from_le_bytes([low, high]),
        })
    }
}

// The name is a part of the file.
#[derive(Clone, Copy, Drop)]
pub struct TaskLine<'a> {
    pub task: u8,
    pub weight: u8,
    pub name: &'a [u8],
}

impl<'a> TryFrom<&'a [u8]> for TaskLine<'a> {
    type Error = Refusal;

    ghost try_from_gives = { λ body line. task_seen line ≡ ok_or (task_in body.now) WrongLength };

    fn try_from(body: &'a [u8]) -> Result<TaskLine<'a>, Refusal> {
        if !(3..=14).contains(&body.len()) {
            return Err(Refusal::WrongLength);
        }
        Ok(TaskLine {
            task: body[0],
            weight: body[1],
            name: &body[2..],
        })
    }
}

// A need, or slots held.
#[derive(Clone, Copy, Drop)]
pub struct PairLine {
    pub task: u8,
    pub core: u8,
    pub amount: u16,
}

impl TryFrom<&[u8]> for PairLine {
    type Error = Refusal;

    ghost try_from_gives = { λ body line. line ≡ ok_or (pair_in body.now) WrongLength };

    fn try_from(body: &[u8]) -> Result<PairLine, Refusal> {
        let &[task, core, low, high] = body else {
            return Err(Refusal::WrongLength);
        };
        Ok(PairLine {
            task,
            core,
            amount: u16::from_le_bytes([low, high]),
        })
    }
}

// The number of records that an end record tells.
pub fn record_count(body: &[u8]) -> Result<u16, Refusal>
    ensures { result ≡ ok_or (count_in body.now) WrongLength }
{
    let &[low, high] = body else {
        return Err(Refusal::WrongLength);
    };
    Ok(u16::from_le_bytes([low, high]))
}
