// Random documents, by a fixed generator of its own, as what the program prints depends on each number.
ghost use Rattle.std.specs.Prelude.{◌<◌, ◌≤◌};

use doc::tag::Tag;
use std::alloc::{AllocError, AllocFailed};

// A document is made of at most so many groups, as many as a search through all layouts goes through in a short time.
const MOST_GROUPS_MADE: u64 = 14;

// What texts are made of.
const LETTERS: &[u8; 5] = b" bcda";

#[derive(Drop)]
pub struct Random {
    state: u64,
}

impl Random {
    pub fn new(seed: u64) -> Random {
        Random { state: seed | 1 }
    }

    // A number below n, or 0. An Option would be taken apart at each call, and all pass a number above 0 but where there is nothing to damage.
    pub fn below(&mut self, n: u64) -> u64
        ensures below { 0 < n → result < n }
        ensures within { result ≤ n }
    {
        let mut x = self.state;
        x ^= x >> 12;
        x ^= x << 25;
        x ^= x >> 27;
        self.state = x;
        let y = x.wrapping_mul(2_685_821_657_736_338_717) >> 33;
        y.checked_rem(n).unwrap_or(0)
    }

    // A byte below n, or 0.
    fn byte(&mut self, n: u8) -> u8 {
        self.below(u64::from(n)) as u8
    }
}

// A document that is being made.
#[derive(Drop)]
pub struct Maker {
    pub random: Random,
    pub spelled: Vec<u8>,
    groups: u64,
}

impl Maker {
    pub fn new(random: Random, spelled: Vec<u8>) -> Maker {
        Maker {
            random,
            spelled,
            groups: 0,
        }
    }

    // One document of about so many parts, in the place of the one before.
    pub fn make(&mut self, parts: u64) -> Result<(), AllocError> {
        self.spelled.clear();
        self.groups = 0;
        self.document(parts)
    }

    // Makes some byte another one.
    pub fn damage(&mut self) {
        let at = self.random.below(self.spelled.len() as u64) as usize;
        let byte = self.random.byte(12);
        if let Some(place) = self.spelled.get_mut(at) {
            *place = byte;
        }
    }

    fn tag(&mut self, tag: Tag) -> Result<(), AllocFailed<u8>> {
        self.spelled.push(tag as u8)
    }

    fn text(&mut self) -> Result<(), AllocFailed<u8>> {
        let len = self.random.byte(7);
        self.tag(Tag::Text)?;
        self.spelled.push(len)?;
        for _ in 0..len {
            self.spelled.push(LETTERS[self.random.below(5) as usize])?;
        }
        Ok(())
    }

    fn leaf(&mut self) -> Result<(), AllocFailed<u8>> {
        match self.random.below(8) {
            0 => self.tag(Tag::Nil),
            1..=3 => self.tag(Tag::Line),
            _ => self.text(),
        }
    }

    fn document(&mut self, parts: u64) -> Result<(), AllocError> {
        if parts == 0 {
            self.leaf()?;
            return Ok(());
        }
        match self.random.below(8) {
            0 => {
                self.tag(Tag::Nest)?;
                let k = self.random.byte(6);
                self.spelled.push(k)?;
                self.document(parts - 1)
            }
            1..=3 if self.groups < MOST_GROUPS_MADE => {
                self.groups += 1;
                self.tag(Tag::Group)?;
                self.document(parts - 1)
            }
            _ => {
                self.tag(Tag::Cat)?;
                let first = self.random.below(parts);
                self.document(first)?;
                self.document(parts - 1 - first)
            }
        }
    }
}
