// The answer to a file: accepted, or refused for a reason, at a place and an offset (rules 8.1, 8.2 and 8.9).
ghost use Rattle.fields.specs.Answers.{AnswerOffsetPromise, AnswerPlacePromise, AnswerRefusalPromise, RefusedPromise};

use crate::reason::Reason;

// Why and where: each reason says what its place is, mostly that of the number at fault, counted from 0 (rule 8.2); and at which byte (rule 8.9).
#[derive(Clone, Copy)]
pub struct Refusal {
    pub reason: Reason,
    pub place: u64,
    pub offset: u64,
}

// Accepted, or why not (rule 8.1).
pub type Answer = Result<(), Refusal>;

// Refused for a reason, at a place and an offset (rule 8.1).
pub fn refused(reason: Reason, place: u64, offset: u64) -> Answer
    ensures { RefusedPromise reason place offset result }
{
    Err(Refusal {
        reason,
        place,
        offset,
    })
}

// The number of refusal, and 0 for an accepted file (rule 8.1).
pub fn refusal_number(answer: Answer) -> u32
    ensures { AnswerRefusalPromise answer result }
{
    match answer {
        Ok(()) => 0,
        Err(refusal) => {
            let reason = refusal.reason;
            reason.number()
        }
    }
}

// The place of the refusal, and 0 for an accepted file (rule 8.2).
pub fn refusal_place(answer: Answer) -> u64
    ensures { AnswerPlacePromise answer result }
{
    match answer {
        Ok(()) => 0,
        Err(refusal) => refusal.place,
    }
}

// The offset of the refusal, and 0 for an accepted file (rule 8.9).
pub fn refusal_offset(answer: Answer) -> u64
    ensures { AnswerOffsetPromise answer result }
{
    match answer {
        Ok(()) => 0,
        Err(refusal) => refusal.offset,
    }
}
