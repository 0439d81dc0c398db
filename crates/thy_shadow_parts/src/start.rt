//! The slot of the checkpoint that a start makes.
ghost use Rattle.std.specs.Prelude.{◌≡◌, ◌*◌, ◌<◌, take, drop};
ghost use Rattle.thy_isa.specs.Step.{state_of, cpu_of};
ghost use Rattle.thy_layout.specs.Entries.{entry_at as listed_at};
ghost use Rattle.thy_checkpoint.specs.Start.{CanStart};
ghost use Rattle.thy_layout.specs.TableSlots.{slot_block_of};
ghost use Rattle.thy_images.specs.ShadowPlaces.{map_blocks, slot_blocks};
ghost use Rattle.thy_shadow_parts.specs.Filling.{first_table};

use thy_block::{Block, Geometry};
use thy_isa::MachState;
use thy_layout::{cpu_block, table_block};

// What a start's map lists at entry `x`: page `x` of the pool, or nothing past memory's last page.
fn first_entry(geometry: &Geometry, x: u64) -> Option<u64>
    requires { x < 8 * map_blocks geometry.now }
    ensures { result ≡ listed_at (first_table geometry.now) x }
{
    let pages = geometry.numbers().pages;
    if x < pages { Some(x) } else { None }
}

// The eight entries of block `k` of that map.
fn first_entries(geometry: &Geometry, k: u64) -> [Option<u64>; 8]
    requires { k < map_blocks geometry.now }
    ensures { result ≡ take 8 (drop (8 * k) (first_table geometry.now)) }
{
    let _numbers = geometry.numbers();
    let mut entries = [None; 8];
    for i in 0..8 {
        entries[i] = first_entry(geometry, 8 * k + i as u64);
    }
    entries
}

/// Block `k` of a start's slot: the processor's record at epoch 0, and after it a map in which each page of memory
/// has the page of the pool with its number.
pub fn start_slot_block(geometry: &Geometry, state: &MachState, k: u64) -> Block
    requires place { k < slot_blocks geometry.now }
    requires start { CanStart geometry.now (state_of state.now) }
    ensures { result ≡ slot_block_of geometry.now (cpu_of (state_of state.now)) (first_table geometry.now) 0 k }
{
    let _numbers = geometry.numbers();
    let record = geometry.record_blocks();
    if k < record {
        cpu_block(&state.cpu(), 0, k)
    } else {
        table_block(&first_entries(geometry, k - record))
    }
}
