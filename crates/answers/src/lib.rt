// The numbers of documents 01 and 02, as code.
#![tactic(auto)]

ghost use Rattle.std.specs.Prelude.{◌≡◌};
ghost use Rattle.lists.specs.Lists.{one_if};
ghost use Rattle.semantics.specs.Answers.{number, answer_of, page_answer, preview_answer, alone_answer};

use semantics::{
    Answer, LeftAlone, Listed, Outcome, Page, Preview, Previewed, Refusal, Unattended,
};

pub fn number_of(refusal: Refusal) -> u32
    ensures { result ≡ number refusal }
{
    match refusal {
        Refusal::TableSizes => 1,
        Refusal::TableContents => 2,
        Refusal::StateSizes => 3,
        Refusal::StateContents => 4,
        Refusal::MoveForm => 5,
        Refusal::TargetTooShort => 6,
        Refusal::WrongPick => 7,
        Refusal::WrongOwner => 8,
        Refusal::NoTransaction => 9,
        Refusal::EndNotAllowed => 10,
        Refusal::NoMoreIds => 11,
        Refusal::TooManyEntries => 12,
        Refusal::LogSizes => 13,
        Refusal::BeginEmits => 14,
        Refusal::TransactionOpen => 15,
        Refusal::SerialTooManyEntries => 17,
        Refusal::TransactionAborting => 18,
        Refusal::BudgetTooLarge => 19,
    }
}

// An answer without the place and number of a log's move.
fn of_call(number: u32, words: u32, members: u32) -> Answer
    ensures { result ≡ record { number = number; words = words; place = 0; own = 0; members = members } }
{
    Answer {
        number,
        words,
        place: 0,
        own: 0,
        members,
    }
}

pub fn answer_of(outcome: Outcome) -> Answer
    ensures { result ≡ answer_of outcome }
{
    match outcome {
        Outcome::Passed => of_call(0, 0, 0),
        Outcome::Written(words) => of_call(0, words, 0),
        Outcome::Moved(words, members) => of_call(0, words, members),
        Outcome::Refused(refusal) => of_call(number_of(refusal), 0, 0),
        Outcome::MoveRefused(place, refusal) => Answer {
            number: 16,
            words: 0,
            place,
            own: number_of(refusal),
            members: 0,
        },
    }
}

pub fn page_of(listed: Listed) -> Page
    ensures { result ≡ page_answer listed }
{
    let outcome = listed.outcome;
    let answer = answer_of(outcome);
    Page {
        number: answer.number,
        words: answer.words,
        length: listed.length,
    }
}

// A preview without figures.
fn no_figures(number: u32) -> Preview
    ensures { result ≡ record { number = number; entries = 0; next = 0; id = 0; members = 0 } }
{
    Preview {
        number,
        entries: 0,
        next: 0,
        id: 0,
        members: 0,
    }
}

pub fn preview_of(previewed: Previewed) -> Preview
    ensures { result ≡ preview_answer previewed }
{
    match previewed {
        Previewed::Accepted(foreseen) => Preview {
            number: 0,
            entries: foreseen.entries,
            next: foreseen.next,
            id: foreseen.id,
            members: foreseen.members,
        },
        Previewed::Rejected(refusal) => no_figures(number_of(refusal)),
    }
}

fn one_if(b: bool) -> u32
    ensures { result ≡ one_if b }
{
    if b { 1 } else { 0 }
}

pub fn unattended_of(left: LeftAlone) -> Unattended
    ensures { result ≡ alone_answer left }
{
    let outcome = left.outcome;
    let answer = answer_of(outcome);
    Unattended {
        number: answer.number,
        words: answer.words,
        moves: left.moves,
        still: one_if(left.still),
    }
}
