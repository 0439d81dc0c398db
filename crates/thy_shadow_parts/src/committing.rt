//! What a commit makes of the pool's table: the pages of the frames take the place of those that were committed before.
ghost use Rattle.std.specs.Prelude.{◌≡◌, ℕ, ◌+◌, ◌<◌, length, None, is_some};
ghost use Rattle.thy_images.specs.ShadowPlaces.{pool_pages};
ghost use Rattle.thy_table.specs.Listing.{entry_at, index_of};
ghost use Rattle.thy_shadow_parts.specs.Commit.{committed_pool, freed, renamed, moved_by};
ghost use Rattle.thy_shadow_parts.specs.Keys.{number_key};

use crate::entry::{Framed, Held};
use thy_block::Geometry;
use thy_table::Table;

/// Commits every frame, from the lowest on.
pub(crate) fn commit_all(geometry: &Geometry, frames: &Table<Framed>, pool: &mut Table<Held>)
    requires frames { length frames.now.entries ≡ geometry.now.ptt }
    requires pages { frames.now.numbers ≡ geometry.now.pages }
    requires numbers { pool.old.numbers ≡ pool_pages geometry.now }
    requires claimed { (j : ℕ) → is_some (entry_at frames.now j) ≡ is_some (index_of number_key (geometry.now.pages + j) pool.old) }
    ensures { pool.new ≡ committed_pool geometry.now.ptt geometry.now frames.now pool.old }
{
    frames.recall_lists_once();
    pool.recall_lists_once();
    let size = geometry.numbers().ptt as usize;
    for j in 0..size {
        commit_one(geometry, j, frames, pool);
    }
}

/// Commits frame `j`, if it is filled.
fn commit_one(geometry: &Geometry, j: usize, frames: &Table<Framed>, pool: &mut Table<Held>)
    requires frame { j < geometry.now.ptt }
    requires size { length frames.now.entries ≡ geometry.now.ptt }
    requires pages { frames.now.numbers ≡ geometry.now.pages }
    requires numbers { pool.old.numbers ≡ pool_pages geometry.now }
    ensures { pool.new ≡ moved_by (entry_at frames.now j) (geometry.now.pages + j) pool.old }
{
    frames.recall_lists_once();
    if let Some(frame) = frames.entry(j) {
        free_number(frame.page, pool);
        rename(geometry.numbers().pages + j as u64, frame.page, pool);
    }
}

/// Frees the entry that lists a number.
fn free_number(number: u64, pool: &mut Table<Held>)
    ensures { pool.new ≡ freed number pool.old }
{
    pool.recall_lists_once();
    match pool.find(number) {
        Some(q) => pool.clear(q),
        None => {}
    }
}

/// Lets the entry that lists a number list page `page`, which no entry does.
fn rename(number: u64, page: u64, pool: &mut Table<Held>)
    requires unlisted { index_of number_key page pool.old ≡ None }
    requires inside { page < pool.old.numbers }
    ensures { pool.new ≡ renamed number page pool.old }
{
    pool.recall_lists_once();
    match pool.find(number) {
        Some(q) => {
            pool.clear(q);
            pool.put(q, Held::new(page));
        }
        None => {}
    }
}
