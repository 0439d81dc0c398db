//! The tests of a configuration's ranges, in the order of the table of options.
ghost use Rattle.std.specs.Prelude.{◌≡◌, ◌+◌, ◌*◌, ◌<◌, ◌≤◌, ◌∷◌, [], drop, take, Bool, Option, Some, None, List, length, if◌then◌else◌, nat_le, ◌&&◌};
ghost use Rattle.thy_base.specs.Config.{fault_of, parameters_of, pick_rows, product_row, range_of, rising_rows, cut_rows, rows_at};
ghost use Rattle.thy_base.specs.Options.{option_of};
ghost use Rattle.thy_block.specs.Ranges.{between};
ghost use Rattle.thy_base.specs.Rows.{fault_in, is_in};

use crate::options::fields;
use crate::{Bounds, Config, ConfigError, Field, Value};
use thy_block::{PAGE_SIZE, Parameters};

/// The numbers of a configuration, without its lists and the gap.
pub(crate) fn parameters(c: &Config) -> Parameters
    ensures { result ≡ parameters_of c.now }
{
    Parameters {
        base: c.base,
        pages: c.pages,
        console: c.console,
        epoch: c.epoch,
        btt: c.btt,
        ptt: c.ptt,
        sets: c.sets,
        ways: c.ways,
        nvmq: c.nvmq,
        dramq: c.dramq,
        high: c.high,
        low: c.low,
        mix: c.mix,
        limit: c.limit,
        scheme: c.scheme,
        harts: c.harts,
    }
}

/// The first value out of its range.
pub(crate) fn first_fault(c: &Config) -> Option<ConfigError>
    ensures { result ≡ fault_of c.now }
{
    for field in fields() {
        if let Some(fault) = fault_at(c, *field) {
            return Some(fault);
        }
    }
    None
}

/// The first fault among the values of a field. Cuts come after the pages.
fn fault_at(c: &Config, field: Field) -> Option<ConfigError>
    requires few_pages { (option_of field).value ≡ Value.Rising → c.now.pages ≤ 65536 }
    ensures { result ≡ fault_in (rows_at c.now field) }
{
    match field.option().value {
        Value::Number(_, bounds) => {
            let value = c.number(field);
            or_else(is_in(c, bounds, value), field, value, None)
        }
        Value::Rising => cuts(c),
        Value::Picks => picks(c),
        Value::Name => None,
    }
}

fn is_within(least: u64, greatest: u64, n: u64) -> bool
    ensures { result ≡ is_in (between least greatest) n }
{
    least <= n && n <= greatest
}

/// Whether a number is in a range of a configuration's option.
fn is_in(c: &Config, bounds: Bounds, n: u64) -> bool
    ensures { result ≡ is_in (range_of c.now bounds) n }
{
    match bounds {
        Bounds::Any => true,
        Bounds::AtMost(greatest) => n <= greatest,
        Bounds::Between(least, greatest) => is_within(least, greatest, n),
        Bounds::Eights(least, greatest) => is_within(least, greatest, n) && n % 8 == 0,
        Bounds::PowerOfTwo => is_within(1, 64, n) && 64 % n == 0,
        Bounds::PageAddress => n.is_multiple_of(PAGE_SIZE) && n < 1 << 62,
        Bounds::Below(least, greatest, other) => {
            is_within(least, greatest, n) && n < c.number(other)
        }
        Bounds::AtMostOf(other) => n <= c.number(other),
    }
}

fn or_else(fits: bool, field: Field, value: u64, rest: Option<ConfigError>) -> Option<ConfigError>
    ensures { result ≡ (if fits then rest else Some (record { field = field; value = value })) }
{
    if fits {
        rest
    } else {
        Some(ConfigError { field, value })
    }
}

fn cuts(c: &Config) -> Option<ConfigError>
    requires { c.now.pages ≤ 65536 }
    ensures { result ≡ fault_in (cut_rows c.now) }
{
    let count = c.cuts.len();
    if count > 64 {
        return Some(ConfigError {
            field: Field::Cuts,
            value: count as u64,
        });
    }
    not_rising(c.cuts.as_slice()).or(product(c.pages, count as u64))
}

fn product(pages: u64, count: u64) -> Option<ConfigError>
    requires few_pages { pages ≤ 65536 }
    requires few_cuts { count ≤ 64 }
    ensures { result ≡ fault_in (product_row pages count ∷ []) }
{
    let product = pages * (count + 1);
    or_else(product <= 65536, Field::Cuts, product, None)
}

fn not_rising(cuts: &[u64]) -> Option<ConfigError>
    ensures { result ≡ fault_in (rising_rows 0 cuts.now) }
{
    let mut before = 0;
    for cut in cuts {
        if *cut <= before {
            return Some(ConfigError {
                field: Field::Cuts,
                value: *cut,
            });
        }
        before = *cut;
    }
    None
}

fn picks(c: &Config) -> Option<ConfigError>
    ensures { result ≡ fault_in (pick_rows c.now) }
{
    let count = c.tears.len();
    let few = count.saturating_sub(1) <= c.cuts.len();
    or_else(few, Field::Tears, count as u64, None)
}
