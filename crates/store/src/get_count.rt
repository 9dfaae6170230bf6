// GetCount: the number of blocks that a client owns.
ghost use Rattle.std.specs.Prelude.{◌≡◌};
ghost use Rattle.promise.specs.Refusals.{lowest};
ghost use Rattle.promise.specs.Trailer.{n_of};
ghost use Rattle.promise.specs.Counts.{count_of};
ghost use Rattle.promise.specs.GetCount.{get_count_rows, GetCountPromise};
ghost use Rattle.front.specs.Rows.{answered};

use image::counts;
use kinds::{GetCountAnswer, Report, User};
use tariff::Tariff;

// All tests, and the count.
fn count(client: User, img: &[u8]) -> Result<u32, Report>
    ensures { result ≡ answered (lowest (get_count_rows img.now client.0)) (count_of (n_of img.now) img.now client.0) }
{
    let t = front::reading(client, img)?;
    let count = counts::count_of(img, t.n, client);
    if (t.n as u64) < count {
        return Err(Report::Damaged);
    }
    Ok(count as u32)
}

pub fn get_count(t: Tariff, client: User, img: &[u8]) -> GetCountAnswer
    ensures { GetCountPromise t img.now client.0 result }
{
    match count(client, img) {
        Err(r) => GetCountAnswer {
            receipt: front::refused(t, r),
            count: 0,
        },
        Ok(count) => GetCountAnswer {
            receipt: front::done(tariff::price(t.getcount)),
            count,
        },
    }
}
