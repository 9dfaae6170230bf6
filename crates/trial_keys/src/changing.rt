// A store that changes, and what the trial knows of it from what Create, Destroy, Replace and Scavenge answered.
ghost use Rattle.std.specs.Prelude.{◌<◌, ◌≤◌};

use crate::calls::{PRICES, low};
use kinds::limits::{LEAST_BLOCKS, MOST_BLOCKS, MOST_HEADERS};
use kinds::{Id, Receipt, Report, Tick, User};
use std::alloc::{AllocError, Global};

// The data that is stored.
const MADE: [u8; 528] = [b'z'; 528];

const REPLACED: [u8; 528] = [b'y'; 528];

// A block, as the trial knows it. The default is a free one: NullId, of client 0. No Option: a Create that is refused
// leaves NullId, and an owner.
#[derive(Clone, Copy, Default)]
pub(crate) struct Block {
    id: u64,
    pub owner: u32,
    expires: u64,
    // Whether it has stood since the walk began.
    stood: bool,
    // Whether the walk has named it.
    pub named: bool,
}

// One more of what is counted.
pub(crate) fn count(n: &mut u64) {
    *n = n.wrapping_add(1);
}

// What Destroy and Replace report on an id: NoSuchBlock for NullId.
fn known(id: u64) -> Report {
    if id == 0 {
        Report::NoSuchBlock
    } else {
        Report::Success
    }
}

// A store of n blocks. Format refuses an n that the image is not for, and then the image stays as it was.
#[derive(Drop)]
pub(crate) struct Changing<'a> {
    pub img: &'a mut [u8],
    n: usize,
    // Those below 4,096; any other one is taken for free.
    blocks: Vec<Block>,
    // The last number of a fixed sequence.
    drawn: u64,
    time: u64,
    // The block that the next Scavenge goes on with.
    sweep: usize,
    // How many answers are not the expected ones.
    pub unlike: u64,
}

impl<'a> Changing<'a> {
    // A fresh store, whose changes are drawn from a seed.
    pub(crate) fn new(
        alloc: Global,
        img: &'a mut [u8],
        n: usize,
        seed: u64,
    ) -> Result<Changing<'a>, AllocError> {
        image::format::format(low(n as u64), img);
        Ok(Changing {
            img,
            n,
            blocks: vec![in alloc; Block::default(); MOST_BLOCKS]?,
            drawn: seed,
            time: 0,
            sweep: 0,
            unlike: 0,
        })
    }

    // The next number of a fixed sequence, below 32,768.
    fn draw(&mut self) -> u64 {
        self.drawn = ((self.drawn % 2147483648) * 1103515245 + 12345) % 2147483648;
        self.drawn / 65536
    }

    // The next time.
    fn tick(&mut self) -> u64 {
        self.time = self.time.wrapping_add(1);
        self.time
    }

    // How many blocks are drawn from: 8 of a store of 8 blocks, 4,096 of any other.
    fn drawable(&self) -> usize
        ensures { (0 < result) × (result ≤ 4096) }
    {
        if self.n == LEAST_BLOCKS {
            LEAST_BLOCKS
        } else {
            MOST_BLOCKS
        }
    }

    // A drawn block.
    fn pick(&mut self) -> usize {
        self.draw() as usize % self.drawable()
    }

    // A drawn time, not far from now: a part of the blocks expires during a walk.
    fn expiry(&mut self, time: u64) -> u64 {
        time.wrapping_add(self.draw() % (4 * self.drawable() as u64))
    }

    pub(crate) fn block(&self, b: usize) -> Block {
        self.blocks.get(b).copied().unwrap_or_default()
    }

    pub(crate) fn put(&mut self, b: usize, block: Block) {
        if let Some(place) = self.blocks.get_mut(b) {
            *place = block;
        }
    }

    // The lowest block with an id, NullId for a free one. A store of more than 4,096 blocks has a free one after those.
    pub(crate) fn find(&self, id: u64) -> Option<usize> {
        let known = self.n.min(self.blocks.len());
        let place = self.blocks[..known].iter().position(|block| block.id == id);
        if place.is_none() && id == 0 && known < self.n {
            return Some(known);
        }
        place
    }

    // A report that is not the expected one is counted.
    fn expect(&mut self, receipt: Receipt, report: Report) {
        if receipt.report != report {
            count(&mut self.unlike);
        }
    }

    // Create takes the lowest free block, or reports NoSpace. Three of four blocks are client 3's.
    pub(crate) fn create(&mut self) {
        let free = self.find(0);
        let owner = if self.draw() % 4 == 0 { 5 } else { 3 };
        let time = self.tick();
        let expires = self.expiry(time);
        let a = store::create::create(
            PRICES,
            User(owner),
            Tick(expires),
            &MADE,
            Tick(time),
            self.img,
        );
        match free {
            Some(b) => {
                self.expect(a.receipt, Report::Success);
                let made = Block {
                    id: a.id.0,
                    owner,
                    expires,
                    stood: false,
                    named: false,
                };
                self.put(b, made);
            }
            None => self.expect(a.receipt, Report::NoSpace),
        }
    }

    fn destroy(&mut self) {
        let b = self.pick();
        let Block { id, owner, .. } = self.block(b);
        let time = Tick(self.tick());
        let a = store::destroy::destroy(PRICES, User(owner), Id(id), time, self.img);
        self.expect(a.receipt, known(id));
        self.put(b, Block::default());
    }

    // Replace keeps the block, its owner and its expires.
    fn replace(&mut self) {
        let b = self.pick();
        let block = self.block(b);
        let Block { id, owner, .. } = block;
        let time = Tick(self.tick());
        let a = store::replace::replace(PRICES, User(owner), Id(id), &REPLACED, time, self.img);
        self.expect(a.receipt, known(id));
        let replaced = Block {
            id: a.id.0,
            stood: false,
            named: false,
            ..block
        };
        self.put(b, replaced);
    }

    // The used blocks from one to before another that have expired are free then; how many.
    fn expire(&mut self, from: usize, to: usize, time: u64) -> u32 {
        let mut gone = 0u32;
        for b in from..to {
            let Block { id, expires, .. } = self.block(b);
            if id != 0 && expires < time {
                self.put(b, Block::default());
                gone = gone.wrapping_add(1);
            }
        }
        gone
    }

    // Scavenge goes on where the last one stopped.
    fn scavenge(&mut self) {
        let from = self.sweep;
        let to = self.n.min(from.saturating_add(MOST_HEADERS));
        let time = self.tick();
        let key = low(from as u64);
        let a = keys::scavenge::scavenge(PRICES, User(0), key, Tick(time), self.img);
        self.expect(a.receipt, Report::Success);
        if a.count != self.expire(from, to, time) {
            count(&mut self.unlike);
        }
        self.sweep = if to == self.n { 0 } else { to };
    }

    // Changes that are drawn.
    pub(crate) fn change(&mut self, times: u64) {
        for _ in 0..times {
            match self.draw() % 8 {
                0..=2 => self.create(),
                3 | 4 => self.destroy(),
                5 | 6 => self.replace(),
                _ => self.scavenge(),
            }
        }
    }

    // A walk begins: each block that stands has stood since.
    pub(crate) fn begin(&mut self) {
        for block in self.blocks.iter_mut().take(self.n) {
            block.stood = true;
        }
    }

    // How many of a client's blocks have stood since the walk began.
    pub(crate) fn stood(&self, client: u32) -> usize {
        self.blocks
            .iter()
            .take(self.n)
            .filter(|block| block.owner == client && block.stood)
            .count()
    }

    // How many of them the walk has not named.
    pub(crate) fn missed(&self, client: u32) -> usize {
        self.blocks
            .iter()
            .take(self.n)
            .filter(|block| block.owner == client && block.stood && !block.named)
            .count()
    }
}
