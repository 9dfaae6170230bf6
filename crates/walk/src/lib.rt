// A walk by keys over a client's ids, kept by its caller in one record.

#![tactic(auto)]

ghost use Rattle.std.specs.Prelude.{◌≡◌};
ghost use Rattle.plain.specs.Tests.{when};
ghost use Rattle.promise.specs.Refusals.{succeeds};
ghost use Rattle.promise.specs.Walk.{started, ended_answer, moved_to, StepPromise};

use kinds::limits::{END_KEY, START_KEY};
use kinds::{GetIdsAnswer, Receipt, Report, User, Walk};
use tariff::Tariff;

// What a step gives: the answer, and the record after it.
#[derive(Clone, Copy)]
pub struct Stepped {
    pub answer: GetIdsAnswer,
    pub walk: Walk,
}

// A walk from the start key, with so many ids a step at most.
pub fn start(client: User, count: u32) -> Walk
    ensures { result ≡ started client count }
{
    Walk {
        client,
        count,
        key: START_KEY,
        ended: false,
    }
}

// The answer of a step on an ended walk, free of charge. `front` has the like of its receipt: a crate to stand on for
// one line.
fn ended_answer() -> GetIdsAnswer
    ensures { result ≡ ended_answer }
{
    GetIdsAnswer {
        receipt: Receipt {
            report: Report::Success,
            charge: tariff::price(0),
        },
        key: END_KEY,
        entries: 0,
    }
}

// The record after a call with this report and this key: a refused one leaves it as it was.
#[tactic(auto, using(crate::proofs::Steps::stays, crate::proofs::Steps::moves))]
fn moved(w: Walk, report: Report, key: u32) -> Walk
    ensures { result ≡ when (succeeds report) (moved_to w key) w }
{
    match report {
        Report::Success => Walk {
            key,
            ended: key == END_KEY,
            ..w
        },
        _ => w,
    }
}

// A step, by value. An ended walk is looked at before anything else; any other step is a GetIds call.
pub fn next(t: Tariff, w: Walk, ids: &mut [u8], img: &[u8]) -> Stepped
    ensures { StepPromise t img.now w ids.old result.answer result.walk ids.new }
{
    if w.ended {
        return Stepped {
            answer: ended_answer(),
            walk: w,
        };
    }
    let answer = keys::ids::get_ids(t, w.client, w.key, w.count, ids, img);
    Stepped {
        answer,
        walk: moved(w, answer.receipt.report, answer.key),
    }
}

// A step, which updates the record where it stands.
pub fn step(t: Tariff, w: &mut Walk, ids: &mut [u8], img: &[u8]) -> GetIdsAnswer
    ensures { StepPromise t img.now w.old ids.old result w.new
        ids.new }
{
    let s = next(t, *w, ids, img);
    *w = s.walk;
    s.answer
}
