//! A drawing of the layers of an index, and of how a seek goes down through them.

use crate::block_starts::BlockStarts;
use std::alloc::AllocError;
use std::fmt::Write;

// The drawing's width, the height of a run's boxes, and that of a run with its title and the room after it.
const WIDTH: u64 = 1000;

const BOX_HEIGHT: u64 = 40;

const ROW_HEIGHT: u64 = 100;

// The height of a title.
const TITLE_HEIGHT: u64 = 24;

/// A seek for the document in the middle.
#[derive(Clone, Copy)]
pub struct SeekDrawing<'a> {
    starts: &'a BlockStarts,
    period: u64,
    layers: u32,
    /// The block that has the document.
    block: u64,
}

// One run of a layer: its entries, each over `span` blocks, and the entry that the seek takes.
#[derive(Clone, Copy)]
struct Run {
    first: u64,
    end: u64,
    span: u64,
    taken: u64,
}

impl Run {
    // The width of an entry's box.
    fn box_width(&self) -> u64 {
        WIDTH / (self.end.saturating_sub(self.first)).max(1)
    }

    // Where the box of an entry begins.
    fn box_left(&self, entry: u64) -> u64 {
        entry
            .saturating_sub(self.first)
            .saturating_mul(self.box_width())
    }
}

impl<'a> SeekDrawing<'a> {
    /// In an index of this period and with this number of layers.
    pub fn new(starts: &'a BlockStarts, period: u8, layers: u32) -> SeekDrawing<'a> {
        SeekDrawing {
            starts,
            period: u64::from(period),
            layers,
            block: starts.len() / 2,
        }
    }

    // The run of a layer that the seek goes through, where an entry is over `span` blocks.
    fn run(&self, span: u64) -> Run {
        let span = span.max(1);
        let taken = self.block / span;
        let first = taken - taken % self.period.max(1);
        let entries = self.starts.len().div_ceil(span);
        Run {
            first,
            end: first.saturating_add(self.period).min(entries),
            span,
            taken,
        }
    }

    // Draws an entry of a run as a box.
    fn draw_entry(
        &self,
        page: &mut String,
        run: Run,
        entry: u64,
        top: u64,
    ) -> Result<(), AllocError> {
        let width = run.box_width();
        let left = run.box_left(entry);
        let class = if entry == run.taken { "taken" } else { "entry" };
        let start = self.starts.start(entry.saturating_mul(run.span));
        let end = self
            .starts
            .start(entry.saturating_add(1).saturating_mul(run.span));
        write!(
            page,
            "<g><title>documents {start} to {end}, the end excluded</title>"
        )?;
        write!(
            page,
            "<rect class=\"{class}\" x=\"{left}\" y=\"{top}\" width=\"{width}\" height=\"{BOX_HEIGHT}\"/>"
        )?;
        if width >= 120 {
            let (x, y) = (left.saturating_add(6), top.saturating_add(25));
            write!(page, "<text x=\"{x}\" y=\"{y}\">{start}..{end}</text>")?;
        }
        page.push_str("</g>\n")
    }

    // Draws the entries of a run.
    fn draw_run(&self, page: &mut String, run: Run, top: u64) -> Result<(), AllocError> {
        for entry in run.first..run.end {
            self.draw_entry(page, run, entry, top)?;
        }
        Ok(())
    }

    // Draws the title of a layer.
    fn draw_title(
        &self,
        page: &mut String,
        run: Run,
        layer: u64,
        top: u64,
    ) -> Result<(), AllocError> {
        let entries = self.starts.len().div_ceil(run.span.max(1));
        let runs = entries.div_ceil(self.period.max(1));
        let (taken, y) = (run.taken, top.saturating_sub(8));
        write!(
            page,
            "<text class=\"title\" x=\"0\" y=\"{y}\">layer {layer}: entries: {entries}, runs: {runs}; "
        )?;
        write!(
            page,
            "the seek reads this run and takes entry {taken}</text>\n"
        )
    }

    // Draws the way from the entry that is taken to the run below.
    fn draw_way(&self, page: &mut String, run: Run, top: u64) -> Result<(), AllocError> {
        let left = run.box_left(run.taken);
        let right = left.saturating_add(run.box_width());
        let (from, to) = (
            top.saturating_add(BOX_HEIGHT),
            top.saturating_add(ROW_HEIGHT),
        );
        write!(
            page,
            "<polygon class=\"way\" points=\"{left},{from} {right},{from} {WIDTH},{to} 0,{to}\"/>\n"
        )
    }

    // Draws one layer's run.
    fn draw_layer(
        &self,
        page: &mut String,
        span: u64,
        layer: u64,
        top: u64,
    ) -> Result<(), AllocError> {
        let run = self.run(span);
        if layer > 0 {
            self.draw_way(page, run, top)?;
        }
        self.draw_run(page, run, top)?;
        self.draw_title(page, run, layer, top)
    }

    /// Draws the runs from the top layer down.
    pub fn draw(&self, page: &mut String) -> Result<(), AllocError> {
        let layers = u64::from(self.layers);
        let height = layers.saturating_mul(ROW_HEIGHT);
        write!(
            page,
            "<div class=\"wide\"><svg viewBox=\"0 0 {WIDTH} {height}\" role=\"img\" aria-label=\"a seek\">\n"
        )?;
        let mut span = self.period.saturating_pow(self.layers.saturating_sub(1));
        for row in 0..layers {
            let top = row.saturating_mul(ROW_HEIGHT).saturating_add(TITLE_HEIGHT);
            self.draw_layer(
                page,
                span,
                layers.saturating_sub(row.saturating_add(1)),
                top,
            )?;
            span /= self.period.max(1);
        }
        page.push_str("</svg></div>\n")
    }
}
