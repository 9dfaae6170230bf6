// The counts, and the bytes of service blocks.
ghost use Rattle.std.specs.Prelude.{◌≡◌, ◌<◌, [], ◌∷◌, length};
ghost use Rattle.word.specs.Word.{part};
ghost use Rattle.word.specs.Write.{over, puts};
ghost use Rattle.promise.specs.Layout.{data_at};
ghost use Rattle.promise.specs.Counts.{count_of, count_set, service_block};
ghost use Rattle.image.specs.Image.{Laid};

use crate::layout::{DISK_BLOCK, HEADER, MAP_AND_COUNTS, NUMBER, SERVICE_BLOCK, TAG, TAG_AT};
use kinds::{BlockNum, User};
use word::Number;

#[tactic(auto, using(promise::proofs::CountLaws::count_at_lem))]
pub fn count_of(img: &[u8], n: usize, u: User) -> u64
    requires { Laid img.now n × (u.0 < 64) }
    ensures { result ≡ count_of n img.now u.0 }
{
    u64::get(img, HEADER * n + DISK_BLOCK + NUMBER * (u.0 as usize))
}

#[tactic(auto, unfolding(word::specs::Write::puts))]
pub fn set_count(img: &mut [u8], n: usize, u: User, count: u64)
    requires { Laid img.old n × (u.0 < 64) }
    ensures { img.new ≡ puts img.old (count_set n u.0 count ∷ []) }
{
    u64::put(
        img,
        HEADER * n + DISK_BLOCK + NUMBER * (u.0 as usize),
        count,
    )
}

// The data block of a block: all of a service block's bytes but the tag.
pub fn put_data(img: &mut [u8], n: usize, b: BlockNum, bytes: &[u8])
    requires { Laid img.old n × (b.0 < n) × (length bytes.now ≡ 528) }
    ensures { img.new ≡ over img.old (data_at n b.0) (part bytes.now 16 512) }
{
    word::paste(
        img,
        HEADER * n + MAP_AND_COUNTS + DISK_BLOCK * (b.0 as usize),
        &bytes[TAG..SERVICE_BLOCK],
    )
}

// The 528 bytes of a block: the tag, then the data block.
pub fn get_block(img: &[u8], n: usize, b: BlockNum, buffer: &mut [u8])
    requires { Laid img.now n × (b.0 < n) × (length buffer.old ≡ 528) }
    ensures { buffer.new ≡ service_block n img.now b.0 }
{
    let i = b.0 as usize;
    let tag = HEADER * i + TAG_AT;
    let data = HEADER * n + MAP_AND_COUNTS + DISK_BLOCK * i;
    word::paste(buffer, 0, &img[tag..tag + TAG]);
    word::paste(buffer, TAG, &img[data..data + DISK_BLOCK])
}
