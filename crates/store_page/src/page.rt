//! The page: what a store has, drawn.

use crate::block_starts::BlockStarts;
use crate::excerpts::{Excerpt, push_excerpts};
use crate::histogram::Histogram;
use crate::script::SCRIPT;
use crate::seek_drawing::SeekDrawing;
use std::alloc::AllocError;
use std::fmt::Write;

// The page's look: light and dark by what the reader's system says, and black on white in print.
const HEAD: &str = "\
<!DOCTYPE html>
<html lang=\"en\">
<head>
<meta charset=\"utf-8\">
<meta name=\"viewport\" content=\"width=device-width, initial-scale=1\">
<meta http-equiv=\"Content-Security-Policy\"
  content=\"default-src 'none'; style-src 'unsafe-inline'; script-src 'unsafe-inline'\">
<style>
:root { color-scheme: light dark; --text: #1d2733; --back: #ffffff; --line: #b6c2cf; --soft: #dfe7ef;
  --data: #4a7fb5; --index: #d08a3c; --footer: #7a5ba8; --way: #d08a3c33; --taken: #d08a3c; }
@media (prefers-color-scheme: dark) { :root { --text: #dde5ee; --back: #14191f; --line: #45525f; --soft: #27313b;
  --data: #6fa3d8; --index: #e0a45c; --footer: #a88bd6; --way: #e0a45c33;
  --taken: #7d5523; } }
body { font: 15px/1.5 system-ui, sans-serif; color: var(--text); background: var(--back); max-width: 62rem;
  margin: 2rem auto; padding: 0 1rem; }
h1 { font-size: 1.4rem; overflow-wrap: anywhere; } h2 { font-size: 1.1rem; margin-top: 2rem; }
table { border-collapse: collapse; } th { text-align: left; font-weight: normal; padding-right: 1.5rem; }
td { text-align: right; font-variant-numeric: tabular-nums; }
.parts { display: flex; height: 2.5rem; } .parts div { min-width: 2px; }
.data { background: var(--data); } .index { background: var(--index); } .footer { background: var(--footer); }
.key span { white-space: nowrap; margin-right: 1.2rem; }
.key i { display: inline-block; width: 0.8rem; height: 0.8rem; margin-right: 0.4rem; }
.bars { width: 100%; } .bars th { white-space: nowrap; width: 1%; } .bars .count { width: 1%; padding-left: 1rem; }
.bar { background: var(--data); height: 1.1rem; min-width: 1px; }
.wide { overflow-x: auto; } svg { width: 100%; min-width: 44rem; height: auto; display: block; }
svg text { fill: var(--text); font-size: 13px; }
.entry { fill: var(--soft); stroke: var(--line); } .taken { fill: var(--taken); stroke: var(--line); }
.way { fill: var(--way); }
.tall { max-height: 24rem; overflow: auto; border: 1px solid var(--line); }
.documents { width: 100%; table-layout: fixed; } .documents th { width: 7rem; vertical-align: top; }
.documents td { width: 7rem; vertical-align: top; } .documents td:last-child { width: auto; text-align: left; }
.documents td:last-child { padding-left: 1.5rem; }
pre { white-space: pre-wrap; overflow-wrap: anywhere; margin: 0; font: 13px/1.4 ui-monospace, monospace; }
#other { margin-top: 1rem; } #other input { font: inherit; color: inherit; max-width: 100%; }
#number { background: var(--back); border: 1px solid var(--line); width: 9rem; }
@media print { :root { --text: #000; --back: #fff; } body { margin: 0; max-width: none; }
  * { print-color-adjust: exact; -webkit-print-color-adjust: exact; } section { break-inside: avoid; } }
</style>
";

// What shows any other document, once the file of the store is chosen.
const FORM: &str = "\
<p>To see any other document, choose the store's file, or drop it on this page. The page reads it on this machine and
sends nothing.</p>
<p><label>File <input type=\"file\" id=\"file\"></label></p>
<p><label>Document <input type=\"number\" id=\"number\" min=\"0\"></label></p>
<p id=\"said\" role=\"status\"></p>
<pre id=\"shown\"></pre>
</form></section>
";

/// What is shown of a store.
#[derive(Clone, Copy)]
pub struct Page<'a> {
    pub name: &'a str,
    /// The numbers of the store, each with its name.
    pub numbers: &'a [(&'a str, u64)],
    pub data_bytes: u64,
    pub index_bytes: u64,
    pub footer_bytes: u64,
    pub period: u8,
    pub layers: u32,
    pub starts: &'a BlockStarts,
    pub block_sizes: &'a Histogram,
    pub document_sizes: &'a Histogram,
    /// How many bytes the file has.
    pub file_bytes: u64,
    /// The first document of each block, of as many blocks as are shown.
    pub excerpts: &'a [Excerpt],
}

// Adds a text as HTML writes it.
fn push_text(page: &mut String, text: &str) -> Result<(), AllocError> {
    for letter in text.chars() {
        match letter {
            '&' => page.push_str("&amp;")?,
            '<' => page.push_str("&lt;")?,
            '>' => page.push_str("&gt;")?,
            '"' => page.push_str("&quot;")?,
            _ => page.push(letter)?,
        }
    }
    Ok(())
}

// Adds a row of the table of numbers.
fn push_row(page: &mut String, name: &str, number: u64) -> Result<(), AllocError> {
    write!(page, "<tr><th>{name}</th><td>{number}</td></tr>\n")
}

impl<'a> Page<'a> {
    // The beginning, with the store's name.
    fn push_head(&self, page: &mut String) -> Result<(), AllocError> {
        page.push_str(HEAD)?;
        page.push_str("<title>")?;
        push_text(page, self.name)?;
        page.push_str("</title>\n</head>\n<body>\n<h1>")?;
        push_text(page, self.name)?;
        page.push_str("</h1>\n")
    }

    // The numbers.
    fn push_numbers(&self, page: &mut String) -> Result<(), AllocError> {
        page.push_str("<section><h2>Numbers</h2>\n<table>\n")?;
        for (name, number) in self.numbers {
            push_row(page, name, *number)?;
        }
        page.push_str("</table></section>\n")
    }

    // The parts of the file, to scale.
    fn push_parts(&self, page: &mut String) -> Result<(), AllocError> {
        let (data, index, footer) = (self.data_bytes, self.index_bytes, self.footer_bytes);
        page.push_str("<section><h2>Parts of the file, to scale</h2>\n<div class=\"parts\">")?;
        write!(
            page,
            "<div class=\"data\" style=\"flex:{data} 0 0\" title=\"data\"></div>"
        )?;
        write!(
            page,
            "<div class=\"index\" style=\"flex:{index} 0 0\" title=\"index\"></div>"
        )?;
        write!(
            page,
            "<div class=\"footer\" style=\"flex:{footer} 0 0\" title=\"footer\"></div>"
        )?;
        page.push_str("</div>\n<p class=\"key\">")?;
        write!(
            page,
            "<span><i class=\"data\"></i>blocks: {data} bytes</span> "
        )?;
        write!(
            page,
            "<span><i class=\"index\"></i>index: {index} bytes</span> "
        )?;
        write!(
            page,
            "<span><i class=\"footer\"></i>footer: {footer} bytes</span></p></section>\n"
        )
    }

    // The layers of the index.
    fn push_layers(&self, page: &mut String) -> Result<(), AllocError> {
        page.push_str("<section><h2>The index, and the path of a seek</h2>\n")?;
        let document = self.starts.start(self.starts.len() / 2);
        write!(
            page,
            "<p>Each entry of a layer covers a run of the layer below. This seek looks for document {document}: "
        )?;
        page.push_str(
            "in each layer it takes the first entry whose documents end after that one. ",
        )?;
        page.push_str("A reader of an opened store searches the bottom layer directly.</p>\n")?;
        SeekDrawing::new(self.starts, self.period, self.layers).draw(page)?;
        page.push_str("</section>\n")
    }

    // How the sizes spread.
    fn push_sizes(&self, page: &mut String) -> Result<(), AllocError> {
        page.push_str("<section><h2>Block sizes in bytes</h2>\n")?;
        self.block_sizes.draw(page)?;
        page.push_str("</section>\n<section><h2>Document sizes in bytes</h2>\n")?;
        self.document_sizes.draw(page)?;
        page.push_str("</section>\n")
    }

    // The first document of each block, and what shows any other one.
    fn push_documents(&self, page: &mut String) -> Result<(), AllocError> {
        let (blocks, file_bytes) = (self.excerpts.len(), self.file_bytes);
        page.push_str("<section><h2>Documents</h2>\n")?;
        write!(
            page,
            "<p>The first document of a block, of the first blocks of the store: {blocks}.</p>\n"
        )?;
        push_excerpts(page, self.excerpts)?;
        write!(
            page,
            "<form id=\"other\" data-bytes=\"{file_bytes}\" hidden>\n"
        )?;
        page.push_str(FORM)
    }

    /// The page as HTML, on its own.
    pub fn push_to(&self, page: &mut String) -> Result<(), AllocError> {
        self.push_head(page)?;
        self.push_numbers(page)?;
        self.push_parts(page)?;
        self.push_layers(page)?;
        self.push_sizes(page)?;
        self.push_documents(page)?;
        page.push_str(SCRIPT)?;
        page.push_str("</body>\n</html>\n")
    }
}
