//! What a seal and a commit make of the entries of both tables.
ghost use Rattle.std.specs.Prelude.{◌≡◌};
ghost use Rattle.thy_table.specs.Checkpoint.{sealed_entry, sealed_frame, sealed_page, committed_entry, committed_page};

use crate::{BttEntry, Pending, PttEntry, Site, Version, Working};

/// Step 1 of a seal in docs/CONTROLLER.md, of a block's entry: by whether its page is framed, and whether few entries are
/// free. What was stored
/// becomes the version of the next checkpoint. If few entries are free, an entry that nothing was stored to gives its
/// block back to its page.
pub fn sealed_entry(entry: &BttEntry, framed: bool, few: bool) -> BttEntry
    ensures { result ≡ sealed_entry framed few entry.now }
{
    if framed {
        return BttEntry {
            v1: Version::Out,
            ..*entry
        };
    }
    match entry.work {
        Working::InNvm => BttEntry {
            v1: entry.v1.other(),
            pend: Pending::Settled,
            work: Working::NoWork,
            ..*entry
        },
        Working::InBuffer => BttEntry {
            v1: entry.v1.other(),
            pend: Pending::FromBuffer,
            work: Working::NoWork,
            ..*entry
        },
        Working::NoWork => match entry.v1 {
            Version::Alt if few => BttEntry {
                v1: Version::Out,
                pend: Pending::FromAlternate,
                ..*entry
            },
            _ => *entry,
        },
    }
}

/// Step 2 of a seal, of a page's entry, None if it is cleared: by whether it had few stores. A framed page that was written
/// since it was last belongs to the checkpoint, and one that has few stores leaves.
pub fn sealed_page(page: &PttEntry, low: bool) -> Option<PttEntry>
    ensures { result ≡ sealed_page low page.now }
{
    if page.is_framed() {
        sealed_frame(page, low)
    } else {
        Some(*page)
    }
}

/// A framed page's entry after a seal, None if it is cleared: by whether it had few stores.
fn sealed_frame(page: &PttEntry, low: bool) -> Option<PttEntry>
    ensures { result ≡ sealed_frame low page.now }
{
    let written = page.dirty || page.fresh;
    match page.place {
        Site::AtHome if low && !written => None,
        Site::AtAlternate if low => Some(PttEntry {
            target: Site::AtHome,
            busy: true,
            leaving: true,
            dirty: false,
            fresh: false,
            ..*page
        }),
        place if written => Some(PttEntry {
            target: place.other(),
            busy: true,
            dirty: false,
            fresh: false,
            ..*page
        }),
        place => Some(PttEntry {
            target: place,
            dirty: false,
            fresh: false,
            ..*page
        }),
    }
}

/// A block's entry after a commit, None if it is cleared: neither checkpoint has the block there, and nothing was
/// stored since the seal.
pub fn committed_entry(entry: &BttEntry) -> Option<BttEntry>
    ensures { result ≡ committed_entry entry.now }
{
    match (entry.v1, entry.work) {
        (Version::Out, Working::NoWork) => None,
        _ => Some(BttEntry {
            v0: entry.v1,
            ..*entry
        }),
    }
}

/// A page's entry after a commit, None if it leaves.
pub fn committed_page(page: &PttEntry) -> Option<PttEntry>
    ensures { result ≡ committed_page page.now }
{
    if page.leaving {
        return None;
    }
    Some(PttEntry {
        place: page.target,
        issued: 0,
        ..*page
    })
}
