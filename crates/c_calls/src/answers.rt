// What a caller from C is answered. The numbers for refusals and verdicts, with the places that go with them, are C's layout.
ghost use Rattle.std.specs.Prelude.{◌≡◌};
ghost use Rattle.c_calls.specs.Answers.{answer_of, shown_of};
ghost use Rattle.c_calls.specs.Results.{judgement_of};

use board::fault::Fault;
use judge::Verdict;
use reporting::NoPlan;

// The number is 0 where the call did its work, and else the refusal's; the length is that of what was written.
#[repr(C)]
#[derive(Clone, Copy)]
pub struct Answer {
    pub number: u8,
    pub layer: u8,
    pub place: usize,
    pub length: usize,
}

// The verdict is 0 where the slots pass, 1 where a slot is free (core and task), 2 where a route leads from the loser.
#[repr(C)]
#[derive(Clone, Copy)]
pub struct Judgement {
    pub answer: Answer,
    pub verdict: u8,
    pub core: usize,
    pub task: usize,
    pub steps: usize,
    pub loser: usize,
}

impl From<Result<usize, Fault>> for Answer {
    ghost from_gives = { λ wrote answer. answer ≡ answer_of wrote };

    fn from(wrote: Result<usize, Fault>) -> Answer {
        match wrote {
            Ok(length) => Answer {
                number: 0,
                layer: 0,
                place: 0,
                length,
            },
            Err(fault) => Answer {
                number: fault.number(),
                layer: fault.layer(),
                place: fault.place,
                length: 0,
            },
        }
    }
}

// 255 says that there was not memory enough to make the text.
impl From<Result<usize, NoPlan>> for Answer {
    ghost from_gives = { λ wrote answer. answer ≡ shown_of wrote };

    fn from(wrote: Result<usize, NoPlan>) -> Answer {
        match wrote {
            Ok(length) => Answer::from(Ok::<usize, Fault>(length)),
            Err(NoPlan::Refused(fault)) => Answer::from(Err::<usize, Fault>(fault)),
            Err(NoPlan::OutOfMemory(_)) => Answer {
                number: 255,
                layer: 0,
                place: 0,
                length: 0,
            },
        }
    }
}

impl From<Result<Verdict, Fault>> for Judgement {
    ghost from_gives = { λ verdict judgement. judgement ≡ judgement_of verdict };

    fn from(verdict: Result<Verdict, Fault>) -> Judgement {
        let answer = Answer::from(verdict.map(|_| 0));
        let mut told = Judgement {
            answer,
            verdict: 0,
            core: 0,
            task: 0,
            steps: 0,
            loser: 0,
        };
        match verdict {
            Ok(Verdict::Free { core, task }) => {
                told.verdict = 1;
                told.core = core;
                told.task = task;
            }
            Ok(Verdict::Route { steps, loser }) => {
                told.verdict = 2;
                told.steps = steps;
                told.loser = loser;
            }
            Ok(Verdict::Passed) | Err(_) => {}
        }
        told
    }
}
