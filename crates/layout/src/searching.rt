// The search: from the right to the left, from the row of what stands behind a node to the row of what begins at it.
ghost use Rattle.std.specs.Prelude.{◌≡◌, ℕ, suc, ◌+◌, ◌^◌, ◌≤◌, replicate, length};
ghost use Rattle.cost.specs.Price.{line_more};
ghost use Rattle.cost.specs.Row.{along};
ghost use Rattle.doc.specs.Doc.{Doc};
ghost use Rattle.doc.specs.Standing.{Stands};
ghost use Rattle.layout.specs.Searching.{Begun, Quest, Found, Saved, Merges};

use crate::search::Search;
use crate::tree::Tree;
use cost::price::Cost;
use cost::row::{along, collapse, merge};
use doc::node::Kind;

impl Search {
    // Begins behind a document, where nothing is left at any column.
    pub(crate) fn begin(&mut self, width: u8)
        ensures { Begun width self.new }
    {
        self.row.clear();
        self.row.resize(usize::from(width) + 1, Cost::default());
        self.width = width;
        self.saved.clear();
        self.notes.clear();
        self.offset = 0;
        self.flat = 0;
    }

    // Ends a line before the rest, at an indentation: every column then costs the same. That numbers are at most 2^32, here, below and in `merge`, is asked for sums alone, and known of what is gone through.
    fn line(&mut self, indent: usize)
        requires { (indent ≤ 2 ^ 32) × ((self.old.offset ≤ 2 ^ 32) × (self.old.flat ≤ 2 ^ 32)) }
        ensures width { self.new.width ≡ self.old.width }
        ensures row { self.new.row ≡ replicate (suc self.old.width) (line_more (along self.old.row (indent + self.old.offset))) }
        ensures offset { (self.new.offset ≡ 0) × (self.new.flat ≡ self.old.flat + 1) }
        ensures saved { self.new.saved ≡ self.old.saved }
        ensures notes { self.new.notes ≡ self.old.notes }
    {
        let cost = along(self.row.as_slice(), indent + self.offset).line_more();
        collapse(self.row.as_mut_slice(), cost);
        self.offset = 0;
        self.flat += 1;
    }

    // Keeps the row for the group that is entered.
    fn save(&mut self)
        requires { length self.old.saved + 256 ≤ 16777216 }
        ensures { Saved self.old self.new }
    {
        self.saved.extend_from_slice(self.row.as_slice());
    }

    // Merges the row of a group's broken layouts with that of its flat one, which is read so much further on.
    fn merge_saved(&mut self, reach: usize)
        requires kept { self.old.width + 1 ≤ length self.old.saved }
        requires room { length self.old.notes + 256 ≤ 16777216 }
        requires near { (self.old.offset ≤ 2 ^ 32) × (reach ≤ 2 ^ 32) }
        ensures { Merges self.old reach self.new }
    {
        let base = self.saved.len() - self.row.len();
        let flat = &self.saved.as_slice()[base..];
        merge(
            self.row.as_mut_slice(),
            self.offset,
            flat,
            reach,
            &mut self.notes,
        );
        self.saved.truncate(base);
        self.offset = 0;
    }

    // Goes through the document at a node, from its end to its beginning. Where and how far in are parameters of their own, since a struct of them would be made anew in each frame.
    pub(crate) fn search(&mut self, tree: &Tree, at: usize, indent: usize)
        requires { Quest tree.now.nodes.now at indent self.old }
        ensures { (d : Doc) (p : ℕ) → Stands tree.now.nodes.now d p at → Found d indent self.old self.new }
    {
        let kind = tree.nodes[at].kind;
        match kind {
            Kind::Nil => {}
            Kind::Text(_, len) => {
                self.offset += usize::from(len);
                self.flat += usize::from(len);
            }
            Kind::Cat => {
                // By `as`, since `usize` has no `From<u32>`.
                let second = tree.nodes[at + 1].end as usize;
                self.search(tree, second, indent);
                self.search(tree, at + 1, indent);
            }
            Kind::Nest(k) => self.search(tree, at + 1, indent + usize::from(k)),
            Kind::Line => self.line(indent),
            Kind::Group => {
                let base = self.flat - self.offset;
                self.save();
                self.search(tree, at + 1, indent);
                self.merge_saved(self.flat - base);
            }
        }
    }
}
