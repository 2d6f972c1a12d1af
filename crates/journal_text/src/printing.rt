//! Printing a journal, each part behind what a text has already.
ghost use Rattle.std.specs.Prelude.{◌≡◌, ◌++◌, ◌∷◌, [], OnOk, flat_map};
ghost use Rattle.journal_text.specs.Journal.{entry_line, event_paths, event_word, journal_text, path_text, paths_text, site_text};

use call_tree::SitePath;
use hy_text::{Bytes, put_u64};
use piece_core::{Entry, Event};
use std::alloc::AllocError;

// Sites behind the first of a path, each behind a slash.
fn put_sites(text: &mut Bytes, sites: &[u32]) -> Result<(), AllocError>
    ensures { OnOk result (text.new ≡ text.old ++ flat_map site_text sites.now) }
{
    for site in sites {
        text.push(b'/')?;
        put_u64(text, u64::from(*site))?;
    }
    Ok(())
}

// A path.
fn put_path(text: &mut Bytes, sites: &[u32]) -> Result<(), AllocError>
    ensures { OnOk result (text.new ≡ text.old ++ path_text sites.now) }
{
    match sites.split_first() {
        Some((first, rest)) => {
            put_u64(text, u64::from(*first))?;
            put_sites(text, rest)
        }
        None => Ok(()),
    }
}

// Paths, each behind a space.
fn put_paths(text: &mut Bytes, paths: &[SitePath]) -> Result<(), AllocError>
    ensures { OnOk result (text.new ≡ text.old ++ paths_text paths.now) }
{
    for path in paths {
        text.push(b' ')?;
        put_path(text, path.sites())?;
    }
    Ok(())
}

// The word of an event.
fn word_of(event: &Event) -> &'static [u8]
    ensures { result.now ≡ event_word event.now }
{
    match event {
        Event::Take => b"take",
        Event::Inline { sites: _ } => b"inline",
        Event::Split { site: _ } => b"split",
        Event::Close => b"close",
        Event::Found => b"found",
        Event::Back => b"back",
    }
}

// The paths that an event names.
fn put_named(text: &mut Bytes, event: &Event) -> Result<(), AllocError>
    ensures { OnOk result (text.new ≡ text.old ++ paths_text (event_paths event.now)) }
{
    match event {
        Event::Inline { sites } => put_paths(text, sites.as_slice()),
        Event::Split { site } => {
            text.push(b' ')?;
            put_path(text, site.sites())
        }
        Event::Take => Ok(()),
        Event::Close => Ok(()),
        Event::Found => Ok(()),
        Event::Back => Ok(()),
    }
}

// The line of an event.
fn put_entry(text: &mut Bytes, entry: &Entry) -> Result<(), AllocError>
    ensures { OnOk result (text.new ≡ text.old ++ entry_line entry.now) }
{
    text.append(word_of(&entry.event))?;
    text.push(b' ')?;
    put_u64(text, u64::from(entry.worker))?;
    text.push(b' ')?;
    put_u64(text, entry.node as u64)?;
    put_named(text, &entry.event)?;
    text.push(b'\n')?;
    Ok(())
}

// A line for each event.
fn put_entries(text: &mut Bytes, entries: &[Entry]) -> Result<(), AllocError>
    ensures { OnOk result (text.new ≡ text.old ++ flat_map entry_line entries.now) }
{
    for entry in entries {
        put_entry(text, entry)?;
    }
    Ok(())
}

/// Appends the text of a journal: the line `journal N`, with the number of its events, and a line for each event: its word, the
/// number of the worker and that of the leaf, and for `inline` and `split` the paths of the sites, each the numbers of its sites
/// with slashes between them. The only error is want of memory.
pub fn put_journal(text: &mut Bytes, entries: &[Entry]) -> Result<(), AllocError>
    ensures { OnOk result (text.new ≡ text.old ++ journal_text entries.now) }
{
    text.append(b"journal ")?;
    put_u64(text, entries.len() as u64)?;
    text.push(b'\n')?;
    put_entries(text, entries)
}
