// A reader of a series, for C and Rust. The caller keeps the image, and the place as nine words.
ghost use Rattle.std.specs.Prelude.{◌≡◌, length};
ghost use Rattle.kinds.specs.Kinds.{user};
ghost use Rattle.series.specs.Reader.{started};
ghost use Rattle.zolvortug.specs.Places.{flat, place_in, words_after, phase_of, answer_number, sampled, step_answer};
ghost use Rattle.zolvortug.specs.Places.{step_words};

use kinds::{Report, User};
use series::Sample;

// Where a reader stands, in nine words that its caller keeps: `series::Place`, with the report's number last.
#[repr(C)]
#[derive(Clone, Copy)]
pub struct Place {
    pub n: u32,
    pub client: u32,
    pub series: u32,
    pub block: u32,
    pub sequence: u32,
    pub slot: u32,
    pub at: u32,
    pub end: u32,
    pub report: u32,
}

// What a step answers: the phase, a NaN where there is none, and the answer's number.
#[repr(C)]
#[derive(Clone, Copy)]
pub struct Sampled {
    pub phase: f64,
    pub answer: u8,
}

const WORDS: usize = 9;

// The numbers of the answers.
const ENDED: u8 = 0;

const PHASE: u8 = 1;

const GAP: u8 = 2;

impl From<series::Place> for Place {
    ghost from_gives = { λ p words. words ≡ flat p };

    fn from(p: series::Place) -> Place {
        Place {
            n: p.n,
            client: p.client.0,
            series: p.series,
            block: p.block,
            sequence: p.sequence,
            slot: p.slot,
            at: p.at,
            end: p.end,
            report: u8::from(p.report) as u32,
        }
    }
}

// The place that nine words stand for. No step looks at its report.
fn read_place(w: &[u32]) -> series::Place
    requires { length w.now ≡ 9 }
    ensures { result ≡ place_in w.now }
{
    series::Place {
        report: Report::Success,
        n: w[0],
        client: User(w[1]),
        series: w[2],
        block: w[3],
        sequence: w[4],
        slot: w[5],
        at: w[6],
        end: w[7],
    }
}

// What a step changes of them.
fn write_place(w: &mut [u32], p: series::Place)
    requires { length w.old ≡ 9 }
    ensures { w.new ≡ words_after w.old p }
{
    w[3] = p.block;
    w[4] = p.sequence;
    w[5] = p.slot;
    w[6] = p.at;
}

// The phase of an answer, a NaN where there is none.
#[tactic(auto, using(crate::proofs::Phases::no_number))]
fn phase_of(a: Option<Sample>) -> f64
    ensures { result ≡ phase_of a }
{
    match a {
        None | Some(Sample::Gap) => f64::NAN,
        Some(Sample::Phase(x)) => x,
    }
}

fn answer_number(a: Option<Sample>) -> u8
    ensures { result ≡ answer_number a }
{
    match a {
        None => ENDED,
        Some(Sample::Gap) => GAP,
        Some(Sample::Phase(_)) => PHASE,
    }
}

// Opens a client's series: where its reader stands. The report is the place's.
#[unsafe(no_mangle)]
pub extern "C" fn zolvortug_series_open(client: u32, series: u32, img: &[u8]) -> Place
    ensures { result ≡ flat (started img.now (user client) series) }
{
    reader::opening::start(img, User(client), series).into()
}

// A step, which updates the nine words of a place where they stand. Its answer is laid flat here: by a From it takes a
// third longer.
#[unsafe(no_mangle)]
pub extern "C" fn zolvortug_series_step(p: &mut [u32], img: &[u8]) -> Sampled
    ensures answer { result ≡ sampled (step_answer img.now p.old) }
    ensures place { p.new ≡ step_words img.now p.old }
{
    if p.len() != WORDS {
        return Sampled {
            phase: phase_of(None),
            answer: ENDED,
        };
    }
    let s = reader::stepping::next(img, read_place(p));
    let a = s.answer;
    write_place(p, s.place);
    Sampled {
        phase: phase_of(a),
        answer: answer_number(a),
    }
}
