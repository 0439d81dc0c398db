//! The accesses to the NVM as a table, and what is asked for of it.
ghost use Rattle.std.specs.Prelude.{◌≡◌, ◌++◌, IfSome, OnOk, map, option_map};
ghost use Rattle.std.specs.List.{flat_map};
ghost use Rattle.std.specs.String.{string_bytes};
ghost use Rattle.observe.specs.AccessText.{access_row, cycles_of, has_cycle, is_accesses, name_in, table_text, way_name};

use crate::counts::name_of;
use crate::options::Options;
use std::alloc::{AllocError, Global};
use thy_observe::{Accessed, Window};

/// Whether a word is the option that a name follows.
fn is_accesses(word: &str) -> bool
    ensures { result ≡ is_accesses word.now }
{
    word == "--accesses"
}

/// Takes `--accesses` and a name out of the arguments, if they follow the program's name. Without a name it is left, where a
/// command has to be.
pub fn take_name(words: &mut Vec<String>) -> Option<String>
    ensures { let left = map string_bytes words.new.items in
        name_in (map string_bytes words.old.items) ≡ (option_map string_bytes result, left) }
{
    if words.len() < 3 {
        return None;
    }
    let found = is_accesses(words[1].as_str());
    if !found {
        return None;
    }
    let name = words.remove(2);
    let _word = words.remove(1);
    Some(name)
}

/// The cycles whose accesses are asked for: if no bound is given, all.
pub fn cycles_of(options: Options) -> Window
    ensures { result ≡ cycles_of options }
{
    Window {
        first: options.accesses_from.unwrap_or(1),
        last: options.accesses_to,
    }
}

/// Whether a first or a last cycle is given for the accesses.
pub fn has_cycle(options: Options) -> bool
    ensures { result ≡ has_cycle options }
{
    options.accesses_from.is_some() || options.accesses_to.is_some()
}

/// How a block is accessed.
fn way_name(writes: bool) -> &'static str
    ensures { result.now ≡ way_name writes }
{
    if writes { "write" } else { "read" }
}

/// Adds the row of an access.
fn add_access(alloc: Global, table: &mut String, row: &Accessed) -> Result<(), AllocError>
    ensures { OnOk result (string_bytes table.new ≡ string_bytes table.old ++ access_row row.now) }
{
    let cycle = row.cycle;
    let way = way_name(row.writes);
    let place = row.at;
    let cause = name_of(row.cause);
    let line = format!(in alloc; "{cycle}\tnvm\t{way}\t{place}\t{cause}\n")?;
    table.push_str(line.as_str())
}

/// Adds a row for each access.
fn add_accesses(alloc: Global, table: &mut String, rows: &[Accessed]) -> Result<(), AllocError>
    ensures { OnOk result (string_bytes table.new ≡ string_bytes table.old ++ flat_map access_row rows.now) }
{
    for row in rows {
        add_access(alloc, table, row)?;
    }
    Ok(())
}

/// Adds the names of the columns, and a row for each access, or for none.
fn add_table(alloc: Global, table: &mut String, rows: &[Accessed]) -> Result<(), AllocError>
    ensures { OnOk result (string_bytes table.new ≡ string_bytes table.old ++ table_text rows.now) }
{
    table.push_str("cycle\tdevice\taccess\tplace\tcause\n")?;
    if rows.is_empty() {
        table.push_str("none\n")
    } else {
        add_accesses(alloc, table, rows)
    }
}

/// The table of some accesses; none if memory ran out.
pub fn table_of(alloc: Global, rows: &[Accessed]) -> Option<String>
    ensures { IfSome result (λ table. string_bytes table ≡ table_text rows.now) }
{
    let mut table = String::new(alloc);
    match add_table(alloc, &mut table, rows) {
        Ok(()) => Some(table),
        Err(_) => None,
    }
}
