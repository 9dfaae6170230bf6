// The refusals that operations have in front, and what a refusal answers. The tests end with a report, or with what the
// trailer says.

#![tactic(auto)]

ghost use Rattle.std.specs.Prelude.{◌≡◌};
ghost use Rattle.kinds.specs.declared.Report.TheVariants.{Success};
ghost use Rattle.promise.specs.Refusals.{lowest, refusal};
ghost use Rattle.front.specs.Rows.{bad_times, reading_rows, changing_rows, front_of};

use image::trailer;
use image::trailer::Trailer;
use kinds::limits::{END_OF_TIME, LAST_CLIENT};
use kinds::{Money, Receipt, Report, Tick, User};
use tariff::Tariff;

// What a refusal answers.
pub fn refused(t: Tariff, r: Report) -> Receipt
    ensures { result ≡ refusal t r }
{
    Receipt {
        report: r,
        charge: tariff::price(t.error),
    }
}

pub fn done(charge: Money) -> Receipt
    ensures { result ≡ record { report = Success; charge = charge } }
{
    Receipt {
        report: Report::Success,
        charge,
    }
}

// The image and the client. What is given is the trailer's, and not an Image: `front_of` names it for every input, and
// so can't give it a fact.
#[tactic(auto, using(crate::proofs::Fronts::reading_cases))]
pub fn reading(client: User, img: &[u8]) -> Result<Trailer, Report>
    ensures { result ≡ front_of (lowest (reading_rows img.now client.0)) img.now }
{
    let t = trailer::read_trailer(img).ok_or(Report::BadImage)?;
    if LAST_CLIENT < client.0 {
        return Err(Report::BadUser);
    }
    Ok(t)
}

#[tactic(auto, unfolding(crate::specs::Rows::bad_times, promise::specs::Refusals::bad_now))]
fn bad_times(expiry: Tick, time: Tick) -> bool
    ensures { result ≡ bad_times expiry.0 time.0 }
{
    time.0 == 0 || END_OF_TIME <= time.0 || END_OF_TIME <= expiry.0
}

// The image, the client, the times and the clock. An operation that is asked for no expiry passes 0, which is always
// allowed, as `changing_rows` has it.
#[tactic(auto, using(crate::proofs::Fronts::changing_cases))]
pub fn changing(client: User, expiry: Tick, time: Tick, img: &[u8]) -> Result<Trailer, Report>
    ensures { result ≡ front_of (lowest (changing_rows img.now client.0 expiry.0 time.0))
        img.now }
{
    let t = reading(client, img)?;
    if bad_times(expiry, time) {
        return Err(Report::BadTime);
    }
    if time.0 <= t.clock.0 {
        return Err(Report::ClockNotLater);
    }
    Ok(t)
}
