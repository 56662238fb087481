//! The tasks of docs/RATTLE.md, one module each: every piece of Rattle that the page shows is here.
#![tactic(auto)]

mod in_memory;
mod lists;
mod merging;
mod on_disk;
mod outline;
mod pages;
mod records;
mod slice;

fn main(rt: HostRuntime) -> anyhow::Result<()> {
    in_memory::write_and_read(&rt)?;
    on_disk::write_and_read(&rt)?;
    slice::print_slice(&rt)?;
    outline::print_outlined(&rt)?;
    pages::print_page(&rt)?;
    records::write_and_read(&rt)?;
    merging::print_merged(&rt)?;
    lists::print_answers(&rt)
}
