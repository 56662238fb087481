//! How sizes spread, by powers of two.

use std::alloc::AllocError;
use std::fmt::Write;

// One bin for 0, and one for each power of two.
const BINS: usize = 65;

/// How many sizes there are from each power of two up to the next.
#[derive(Clone, Copy)]
pub struct Histogram {
    counts: [u64; BINS],
}

impl Histogram {
    /// Of no sizes yet.
    pub fn new() -> Histogram {
        Histogram { counts: [0; BINS] }
    }

    /// Counts a size.
    pub fn add(&mut self, size: u64) {
        let place = (u64::BITS - size.leading_zeros()) as usize;
        if let Some(count) = self.counts.get_mut(place) {
            *count = count.saturating_add(1);
        }
    }

    // The greatest count.
    fn peak(&self) -> u64 {
        let mut peak = 0;
        for count in &self.counts {
            peak = peak.max(*count);
        }
        peak
    }

    /// Draws a bar for each bin that has sizes, the longest over the whole width, or the word none.
    pub fn draw(&self, page: &mut String) -> Result<(), AllocError> {
        let peak = self.peak();
        if peak == 0 {
            return page.push_str("<p>none</p>\n");
        }
        page.push_str("<table class=\"bars\">\n")?;
        for (count, bits) in self.counts.iter().zip(0u32..=u64::BITS) {
            if *count > 0 {
                draw_bar(page, bits, *count, peak)?;
            }
        }
        page.push_str("</table>\n")
    }
}

// Adds the range of a bin.
fn push_range(page: &mut String, least: u64, most: u64) -> Result<(), AllocError> {
    if least == most {
        write!(page, "{least}")
    } else {
        write!(page, "{least} to {most}")
    }
}

// Draws the bar of `count` sizes of `bits` bits.
fn draw_bar(page: &mut String, bits: u32, count: u64, peak: u64) -> Result<(), AllocError> {
    let most = u64::MAX
        .checked_shr(u64::BITS.saturating_sub(bits))
        .unwrap_or(0);
    let least = most - most / 2;
    let permille = (count.saturating_mul(1000) / peak.max(1)).max(1);
    let (whole, tenth) = (permille / 10, permille % 10);
    page.push_str("<tr><th>")?;
    push_range(page, least, most)?;
    write!(
        page,
        "</th><td><div class=\"bar\" style=\"width:{whole}.{tenth}%\"></div></td>"
    )?;
    write!(page, "<td class=\"count\">{count}</td></tr>\n")
}
