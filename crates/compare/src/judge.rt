// Holds the printer against a search through all layouts.
use crate::plain::{Document, Greedy, Layout, Price};
use doc::nodes::Nodes;
use layout::laid::Laid;
use layout::refusal::Refusal;
use layout::workspace::Workspace;
use std::alloc::{AllocError, Global};
use std::cmp::Ordering;
use std::fmt;

// Every width up to 40, and some up to the largest.
pub const WIDTHS: [u64; 47] = [
    0, 1, 2, 3, 4, 5, 6, 7, 8, 9, 10, 11, 12, 13, 14, 15, 16, 17, 18, 19, 20, 21, 22, 23, 24, 25,
    26, 27, 28, 29, 30, 31, 32, 33, 34, 35, 36, 37, 38, 39, 40, 50, 63, 80, 127, 200, 255,
];

// The byte that an output buffer is filled with.
const FILLED: u8 = 7;

// What came out, in numbers.
#[derive(Clone, Copy, Default)]
pub struct Tally {
    pub documents: u64,
    pub refused: u64,
    pub layouts: u64,
    pub greedy: u64,
    pub ties: u64,
    pub short: u64,
    pub passed: u64,
    pub failed: u64,
}

impl fmt::Display for Tally {
    fn fmt<W: fmt::Write>(&self, f: &mut fmt::Formatter<W>) -> fmt::Result {
        writeln!(
            f,
            "{} documents at {} widths, {} not documents, {} layouts",
            self.documents,
            WIDTHS.len(),
            self.refused,
            self.layouts
        )?;
        let compared = self.passed.saturating_add(self.failed);
        writeln!(f, "{compared} comparisons, {} without room", self.short)?;
        writeln!(
            f,
            "{} where a printer that looks at the group alone differs",
            self.greedy
        )?;
        writeln!(f, "{} where several layouts are as good", self.ties)?;
        writeln!(f, "{} passed, {} failed", self.passed, self.failed)
    }
}

fn count(tally: &mut u64) {
    *tally = tally.saturating_add(1);
}

// A layout: its price, its number, and whether another one is as good.
#[derive(Clone, Copy)]
struct Found {
    price: Price,
    number: u64,
    tied: bool,
}

impl Found {
    // The better of this and a later layout, and of equals this one.
    fn or(self, later: Found) -> Found {
        match self.price.cmp(&later.price) {
            Ordering::Less => self,
            Ordering::Equal => Found { tied: true, ..self },
            Ordering::Greater => later,
        }
    }
}

// A width, and the best layout at it so far.
#[derive(Clone, Copy)]
struct Trial {
    width: u64,
    best: Option<Found>,
}

impl Trial {
    // Looks at one more layout.
    fn weigh(&mut self, layout: &Layout, number: u64) {
        let found = Found {
            price: layout.price(self.width),
            number,
            tied: false,
        };
        self.best = Some(self.best.map_or(found, |best| best.or(found)));
    }
}

// Looks at one more layout at each width.
fn weigh(trials: &mut [Trial], layout: &Layout, number: u64) {
    for trial in trials {
        trial.weigh(layout, number);
    }
}

fn is_filled(bytes: &[u8]) -> bool {
    bytes.iter().all(|byte| *byte == FILLED)
}

#[derive(Drop)]
pub struct Judge {
    heap: Global,
    workspace: Workspace,
    out: Vec<u8>,
    // How long the buffer is that may be too short for a layout, set where a document is begun.
    short: usize,
    pub tally: Tally,
}

impl Judge {
    pub fn new(heap: Global, workspace: Workspace) -> Judge {
        Judge {
            heap,
            workspace,
            out: Vec::new(heap),
            short: 0,
            tally: Tally::default(),
        }
    }

    fn note(&mut self, right: bool) {
        if right {
            count(&mut self.tally.passed);
        } else {
            count(&mut self.tally.failed);
        }
    }

    // What the printer answers, and writes to a filled buffer of so many bytes; the document and the width as `lay_out` takes them.
    // The tests of `suite` have calls like this one and the next two, where a test has to fail; here what is wrong is counted.
    fn ask(
        &mut self,
        spelled: &[u8],
        width: u64,
        len: usize,
    ) -> Result<Result<Laid, Refusal>, AllocError> {
        self.out.clear();
        self.out.resize(len, FILLED)?;
        let out = self.out.as_mut_slice();
        Ok(self.workspace.lay_out(spelled, width, out))
    }

    // Whether the printer refuses so, and leaves the buffer as it was.
    fn refuses(
        &mut self,
        spelled: &[u8],
        width: u64,
        len: usize,
        refusal: Refusal,
    ) -> Result<bool, AllocError> {
        let answer = self.ask(spelled, width, len)?;
        Ok(answer == Err(refusal) && is_filled(self.out.as_slice()))
    }

    // Whether the printer gives this layout, and leaves the rest of a longer buffer as it was.
    fn gives(
        &mut self,
        spelled: &[u8],
        width: u64,
        text: &[u8],
        lines: usize,
    ) -> Result<bool, AllocError> {
        let answer = self.ask(spelled, width, text.len().saturating_add(3))?;
        let told = answer.is_ok_and(|laid| laid.length == text.len() && laid.lines == lines);
        let behind = self.out.as_slice().strip_prefix(text);
        Ok(told && behind.is_some_and(is_filled))
    }

    // Compares the best layout at one width, with room for it and with less. Where none was found, that counts as failed.
    fn compare(&mut self, document: &Document, trial: Trial) -> Result<(), AllocError> {
        let Trial {
            width,
            best: Some(best),
        } = trial
        else {
            self.note(false);
            return Ok(());
        };
        let Some(layout) = document.numbered(self.heap, best.number)? else {
            self.note(false);
            return Ok(());
        };
        let text = layout.text.as_slice();
        let greedy = document.layout(self.heap, &mut Greedy { width })?;
        if greedy.is_none_or(|other| other.text.as_slice() != text) {
            count(&mut self.tally.greedy);
        }
        if best.tied {
            count(&mut self.tally.ties);
        }
        let right = self.gives(document.spelled, width, text, best.price.lines)?;
        self.note(right);
        if self.short < text.len() {
            count(&mut self.tally.short);
            let right = self.refuses(document.spelled, width, self.short, Refusal::NoRoom)?;
            self.note(right);
        }
        Ok(())
    }

    // Compares one encoding at every width, and at one that cannot be, and in a buffer of so many bytes, where a layout has no room.
    pub fn document(
        &mut self,
        nodes: &mut Nodes,
        spelled: &[u8],
        short: usize,
    ) -> Result<(), AllocError> {
        self.short = short;
        let Ok(()) = nodes.read(spelled) else {
            count(&mut self.tally.refused);
            let right = self.refuses(spelled, 256, short, Refusal::NotDocument)?;
            self.note(right);
            return Ok(());
        };
        count(&mut self.tally.documents);
        let right = self.refuses(spelled, 256, short, Refusal::TooWide)?;
        self.note(right);
        // too many layouts to go through count as failed, too
        let Some(document) = Document::new(nodes.as_slice(), spelled) else {
            self.note(false);
            return Ok(());
        };
        self.search(&document)
    }

    // Goes through all layouts of a document, and compares the best one at every width.
    fn search(&mut self, document: &Document) -> Result<(), AllocError> {
        let mut trials: Vec<Trial> = WIDTHS
            .iter()
            .map(|width| Trial {
                width: *width,
                best: None,
            })
            .collect(self.heap)?;
        for number in 0..document.numbers {
            if let Some(layout) = document.numbered(self.heap, number)? {
                count(&mut self.tally.layouts);
                weigh(trials.as_mut_slice(), &layout, number);
            }
        }
        self.compare_all(document, trials.as_slice())
    }

    fn compare_all(&mut self, document: &Document, trials: &[Trial]) -> Result<(), AllocError> {
        for trial in trials {
            self.compare(document, *trial)?;
        }
        Ok(())
    }
}
