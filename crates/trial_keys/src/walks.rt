// Walks over a store that changes between the steps: what they name is held to what stood throughout.
use crate::calls::{PRICES, record_of};
use crate::changing::{Changing, count};
use kinds::limits::LEAST_BLOCKS;
use kinds::{Report, User, Walk};
use std::alloc::{AllocError, Global};
use std::fmt;
use word::Number;

// The client that walks.
const WALKER: u32 = 3;

// The size of an image of 8 blocks.
const SMALL_IMAGE: usize = 6144;

// A walk that a line of the case file asks for.
#[derive(Clone, Copy)]
pub(crate) struct Asked {
    // How many blocks the store has, and how many of them are made first.
    pub n: usize,
    pub blocks: u64,
    // How many ids a step may name, and how many changes there are after it.
    pub count: u32,
    pub changes: u64,
    pub seed: u64,
}

// What is seen of a walk, or expected, in the numbers of the case file. A call's are as many, with other names.
#[derive(Clone, Copy, PartialEq, Eq, Default)]
pub(crate) struct Walked {
    // 1 where it ended, and a step more names nothing and leaves the record.
    pub ended: u64,
    // Blocks that are not named though they stood throughout.
    pub missed: u64,
    // Ids that are named twice, though not the client's, and below the last.
    pub twice: u64,
    pub strange: u64,
    pub falling: u64,
    // Refused steps.
    pub refused: u64,
    // Answers of changes that the trial does not have.
    pub unlike: u64,
}

impl From<[u64; 7]> for Walked {
    fn from(n: [u64; 7]) -> Walked {
        let [ended, missed, twice, strange, falling, refused, unlike] = n;
        Walked {
            ended,
            missed,
            twice,
            strange,
            falling,
            refused,
            unlike,
        }
    }
}

impl fmt::Display for Walked {
    fn fmt<W: fmt::Write>(&self, f: &mut fmt::Formatter<W>) -> fmt::Result {
        let Walked {
            ended,
            missed,
            twice,
            strange,
            falling,
            refused,
            unlike,
        } = *self;
        write!(
            f,
            "{ended} {missed} {twice} {strange} {falling} {refused} {unlike}"
        )
    }
}

#[derive(Drop)]
pub(crate) struct Walking<'a> {
    store: Changing<'a>,
    walk: Walk,
    pub walked: Walked,
    calls: u64,
    named: u64,
    // The block that was named last.
    last: usize,
}

// What is told of a walk beside its row: calls, ids named, and blocks that stood throughout.
impl fmt::Display for Walking<'_> {
    fn fmt<W: fmt::Write>(&self, f: &mut fmt::Formatter<W>) -> fmt::Result {
        let calls = self.calls;
        let named = self.named;
        let stood = self.store.stood(WALKER);
        write!(f, "(calls {calls} named {named} stood {stood})")
    }
}

impl<'a> Walking<'a> {
    // A walk through a store that is made anew in a room.
    pub(crate) fn through(
        alloc: Global,
        room: &'a mut [u8],
        asked: Asked,
    ) -> Result<Walking<'a>, AllocError> {
        let size = if asked.n == LEAST_BLOCKS {
            SMALL_IMAGE.min(room.len())
        } else {
            room.len()
        };
        let mut store = Changing::new(alloc, &mut room[..size], asked.n, asked.seed)?;
        for _ in 0..asked.blocks {
            store.create();
        }
        store.begin();
        let mut walking = Walking {
            store,
            walk: walk::start(User(WALKER), asked.count),
            walked: Walked::default(),
            calls: 0,
            named: 0,
            last: 0,
        };
        walking.steps(asked);
        walking.end();
        Ok(walking)
    }

    // An id that a step names: whether it stands as the walker's, for the first time, in a block above the last.
    fn name(&mut self, id: u64) {
        count(&mut self.named);
        let place = self.store.find(id);
        let Some(b) = place.filter(|b| self.store.block(*b).owner == WALKER) else {
            count(&mut self.walked.strange);
            return;
        };
        let mut block = self.store.block(b);
        if block.named {
            count(&mut self.walked.twice);
            return;
        }
        block.named = true;
        self.store.put(b, block);
        if b < self.last {
            count(&mut self.walked.falling);
        }
        self.last = b;
    }

    // A step, and what it names.
    fn step(&mut self) {
        let mut ids = [0; 512];
        let mut walk = self.walk;
        let a = walk::step(PRICES, &mut walk, &mut ids, self.store.img);
        self.walk = walk;
        count(&mut self.calls);
        if a.receipt.report != Report::Success {
            count(&mut self.walked.refused);
        }
        for id in ids.chunks_exact(8).take(a.entries as usize) {
            self.name(u64::get(id, 0));
        }
    }

    // Steps until the walk has ended, at most one for each block, with changes after each.
    fn steps(&mut self, asked: Asked) {
        for _ in 0..asked.n {
            if self.walk.ended {
                return;
            }
            self.step();
            self.store.change(asked.changes);
        }
    }

    // What is counted at the end, with a step more, which is to change nothing.
    fn end(&mut self) {
        let before = self.walk;
        let calls = self.calls;
        let named = self.named;
        self.step();
        self.calls = calls;
        let kept = self.named == named && record_of(before, self.walk, 0) == 0;
        self.walked.ended = u64::from(before.ended && kept);
        self.walked.missed = self.store.missed(WALKER) as u64;
        self.walked.unlike = self.store.unlike;
    }
}
