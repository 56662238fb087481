//! Sizes and other numbers as words.

use std::fmt;

/// The size that a word like `512`, `16K`, `4M` or `1G` names, in bytes.
pub fn parse_size(word: &str) -> Option<usize> {
    let unit = match word.as_bytes().last()? {
        b'K' | b'k' => 1usize << 10,
        b'M' | b'm' => 1 << 20,
        b'G' | b'g' => 1 << 30,
        _ => 1,
    };
    let digits = word
        .strip_suffix(['K', 'k', 'M', 'm', 'G', 'g'])
        .unwrap_or(word);
    digits.parse::<usize>().ok()?.checked_mul(unit)
}

/// A number of bytes in at most seven columns: with one digit after the point below 100.
#[derive(Clone, Copy)]
pub struct ShortSize(pub u64);

// The units of which each has a thousand of the one before it.
const UNITS: [&str; 6] = ["KB", "MB", "GB", "TB", "PB", "EB"];

// The tenths of a unit, as they are printed after the whole units.
const TENTHS: [&str; 10] = [".0", ".1", ".2", ".3", ".4", ".5", ".6", ".7", ".8", ".9"];

impl ShortSize {
    // The whole units, the tenths where they are printed, and the unit.
    fn parts(self) -> (u64, &'static str, &'static str) {
        let ShortSize(bytes) = self;
        if bytes < 1000 {
            return (bytes, "", "B");
        }
        // Tenths of the unit.
        let mut tenths = bytes / 100;
        for unit in UNITS {
            let whole = tenths / 10;
            if tenths < 1000 {
                return (whole, TENTHS[(tenths % 10) as usize], unit);
            }
            if whole < 1000 {
                return (whole, "", unit);
            }
            tenths /= 1000;
        }
        (bytes, "", "B")
    }
}

impl fmt::Display for ShortSize {
    fn fmt<W: fmt::Write>(&self, f: &mut fmt::Formatter<W>) -> fmt::Result {
        let (whole, tenths, unit) = self.parts();
        write!(f, "{whole}{tenths} {unit}")
    }
}

/// A number with a comma before each group of three digits but the first one.
#[derive(Clone, Copy)]
pub struct Grouped(pub u64);

// The greatest power of a thousand that a u64 can hold.
const GREATEST_GROUP: u64 = 1_000_000_000_000_000_000;

impl fmt::Display for Grouped {
    fn fmt<W: fmt::Write>(&self, f: &mut fmt::Formatter<W>) -> fmt::Result {
        let Grouped(number) = *self;
        let mut unit = GREATEST_GROUP;
        for _ in 0..6 {
            let rest = number.checked_div(unit).unwrap_or(0);
            if rest >= 1000 {
                write!(f, "{:03},", rest % 1000)?;
            } else if rest > 0 {
                write!(f, "{rest},")?;
            }
            unit /= 1000;
        }
        match number < 1000 {
            true => write!(f, "{number}"),
            false => write!(f, "{:03}", number % 1000),
        }
    }
}
