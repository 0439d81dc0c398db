//! The fields of a configuration as the arguments give them.
ghost use Rattle.std.specs.Prelude.{◌≡◌, IfOk, option_map};
ghost use Rattle.clap.specs.Matches.{found_of};
ghost use Rattle.clap.specs.Walk.{first_of, rows_of};
ghost use Rattle.thy_base.specs.Settings.{has_flag};
ghost use Rattle.thy_base.specs.Fields.{config_at, is_readable, list_at, number_at, reads, scheme_at, scheme_named, unreadable, unreadable_among};
ghost use Rattle.thy_base.specs.Options.{fields};

use crate::arguments::numbers::{is_list, is_number, list_of, number};
use crate::{Config, Field, Numbers, SchemeName, Value, fields};
use clap::ArgMatches;
use std::alloc::{AllocError, Global};

/// The text of an option or operand, if the arguments have it.
pub(crate) fn text_of<'a>(matches: &ArgMatches<'a>, name: &str) -> Option<&'a str>
    ensures { option_map (λ s. s.now) result ≡ first_of name.now (rows_of (found_of matches.now)) }
{
    matches.get_str(name)
}

/// Whether a flag is among the arguments.
pub(crate) fn has_flag(matches: &ArgMatches<'_>, name: &str) -> bool
    ensures { result ≡ has_flag name.now (rows_of (found_of matches.now)) }
{
    match text_of(matches, name) {
        Some(text) => text == "true",
        None => false,
    }
}

/// The scheme of a name.
fn scheme_named(name: &str) -> Option<SchemeName>
    ensures { result ≡ scheme_named name.now }
{
    if name == "thynvm" {
        Some(SchemeName::Thynvm)
    } else if name == "journal" {
        Some(SchemeName::Journal)
    } else if name == "shadow" {
        Some(SchemeName::Shadow)
    } else {
        None
    }
}

/// Whether the text is a value of the field.
fn reads(field: Field, text: &str) -> bool
    ensures { result ≡ reads field text.now }
{
    match field.option().value {
        Value::Number(_, _) => is_number(text),
        Value::Rising | Value::Picks => is_list(text),
        Value::Name => scheme_named(text).is_some(),
    }
}

/// Whether the arguments leave the field out, or give it a value.
fn is_readable(matches: &ArgMatches<'_>, field: Field) -> bool
    ensures { result ≡ is_readable (rows_of (found_of matches.now)) field }
{
    match text_of(matches, field.name()) {
        None => true,
        Some(text) => reads(field, text),
    }
}

/// The first field whose text is not a value of it. The number of a made program comes first.
pub(crate) fn unreadable(matches: &ArgMatches<'_>) -> Option<Field>
    ensures { result ≡ unreadable (rows_of (found_of matches.now)) }
{
    if is_readable(matches, Field::N) {
        unreadable_option(matches)
    } else {
        Some(Field::N)
    }
}

/// The first option of the table whose text is not a value of it.
fn unreadable_option(matches: &ArgMatches<'_>) -> Option<Field>
    ensures { result ≡ unreadable_among fields (rows_of (found_of matches.now)) }
{
    fields()
        .iter()
        .copied()
        .find(|field| !is_readable(matches, *field))
}

/// The number of a field, or its default if the arguments leave it out.
pub(crate) fn number_at(matches: &ArgMatches<'_>, field: Field) -> u64
    ensures { result ≡ number_at (rows_of (found_of matches.now)) field }
{
    let default = field.default_number();
    match text_of(matches, field.name()) {
        Some(text) => number(text).unwrap_or(default),
        None => default,
    }
}

/// The list of a field, empty if the arguments leave it out.
fn list_at(alloc: Global, matches: &ArgMatches<'_>, field: Field) -> Result<Numbers, AllocError>
    ensures { IfOk result (λ v. v ≡ list_at (rows_of (found_of matches.now)) field) }
{
    let items = match text_of(matches, field.name()) {
        Some(text) => list_of(alloc, text)?,
        None => Vec::new(alloc),
    };
    Ok(Numbers::from_vec(items))
}

/// The scheme, `thynvm` if the arguments leave it out.
fn scheme_at(matches: &ArgMatches<'_>) -> SchemeName
    ensures { result ≡ scheme_at (rows_of (found_of matches.now)) }
{
    match text_of(matches, Field::Scheme.name()) {
        Some(text) => scheme_named(text).unwrap_or(SchemeName::Thynvm),
        None => SchemeName::Thynvm,
    }
}

/// The configuration that the arguments give, in which each field is readable.
pub(crate) fn config_at(alloc: Global, matches: &ArgMatches<'_>) -> Result<Config, AllocError>
    ensures { IfOk result (λ c. c ≡ config_at (rows_of (found_of matches.now))) }
{
    let cuts = list_at(alloc, matches, Field::Cuts)?;
    let tears = list_at(alloc, matches, Field::Tears)?;
    Ok(Config {
        base: number_at(matches, Field::Base),
        pages: number_at(matches, Field::Pages),
        console: number_at(matches, Field::Console),
        epoch: number_at(matches, Field::Epoch),
        btt: number_at(matches, Field::Btt),
        ptt: number_at(matches, Field::Ptt),
        sets: number_at(matches, Field::Sets),
        ways: number_at(matches, Field::Ways),
        nvmq: number_at(matches, Field::Nvmq),
        dramq: number_at(matches, Field::Dramq),
        high: number_at(matches, Field::High),
        low: number_at(matches, Field::Low),
        mix: number_at(matches, Field::Mix),
        cuts,
        tears,
        limit: number_at(matches, Field::Limit),
        scheme: scheme_at(matches),
        harts: number_at(matches, Field::Harts),
        gap: number_at(matches, Field::Gap),
    })
}
