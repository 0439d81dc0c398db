//! The command line, row by row. The arguments of a row have a bar between each two, the program's name
//! first.
use crate::support::expect::{expect, expect_at};
use std::alloc::Global;
use std::process::Abort;
use thy_base::{Command, Config, Job, SchemeName, WordsError, settings};

/// Arguments of invalid usage.
static USAGE: [&str; 56] = [
    "thynvm",
    "thynvm|run",
    "thynvm|help",
    "thynvm|--help",
    "thynvm|-h",
    "thynvm|--version",
    "thynvm|-V",
    "thynvm|run|F|--help",
    "thynvm|run|F|-h",
    "thynvm|fly|F",
    "thynvm|F",
    "thynvm|Run|F",
    "thynvm|run|F|G",
    "thynvm|run|-f",
    "thynvm|--pages|9|run|F",
    "thynvm|run|F|--pages",
    "thynvm|run|F|--pages|-5",
    "thynvm|run|F|--page|9",
    "thynvm|run|F|--pages|9|--pages|9",
    "thynvm|run|F|--n|0",
    "thynvm|run|F|--digest|--digest",
    "thynvm|run|F|--digest=true",
    "thynvm|run|--digest",
    "thynvm|plain",
    "thynvm|plain|F|--epoch|9",
    "thynvm|plain|F|--cuts|9",
    "thynvm|run|plain|F",
    "thynvm|run|F|--save",
    "thynvm|run|F|--save|A|--save|B",
    "thynvm|plain|F|--save|S",
    "thynvm|resume",
    "thynvm|resume|D|E",
    "thynvm|resume|D|--n|7",
    "thynvm|Resume|D",
    "thynvm|bench",
    "thynvm|bench|7|F",
    "thynvm|bench|-7",
    "thynvm|bench|--n|7",
    "thynvm|make",
    "thynvm|make|7",
    "thynvm|make|7|O|P",
    "thynvm|make|7|O|--digest",
    "thynvm|make|7|O|--pages|9",
    "thynvm|make|7|O|--save|S",
    "thynvm|run|F|--scheme",
    "thynvm|run|F|--scheme|journal|--scheme|journal",
    "thynvm|plain|F|--scheme|journal",
    "thynvm|make|7|O|--scheme|journal",
    "thynvm|compare",
    "thynvm|compare|F|G",
    "thynvm|Compare|F",
    "thynvm|compare|F|--cuts|9",
    "thynvm|compare|F|--tears|0",
    "thynvm|compare|F|--save|S",
    "thynvm|compare|F|--scheme|shadow",
    "thynvm|plain|F|--harts|2",
];

/// Arguments of which one is not a value, and the field that it should be of.
static WORDS: [(&str, &str); 37] = [
    ("thynvm|run|F|--pages|x", "pages"),
    ("thynvm|run|F|--pages=-5", "pages"),
    ("thynvm|run|F|--pages=+9", "pages"),
    ("thynvm|run|F|--pages=", "pages"),
    ("thynvm|run|F|--pages| 9", "pages"),
    ("thynvm|run|F|--pages|9,9", "pages"),
    ("thynvm|run|F|--mix|10000000000000000000", "mix"),
    ("thynvm|run|F|--mix|00000000000000000001", "mix"),
    ("thynvm|run|F|--cuts|1,2,", "cuts"),
    ("thynvm|run|F|--cuts|,1", "cuts"),
    ("thynvm|run|F|--cuts|1,,2", "cuts"),
    ("thynvm|run|F|--cuts=", "cuts"),
    ("thynvm|run|F|--tears|1;2", "tears"),
    ("thynvm|run|F|--limit|x|--base|y", "base"),
    ("thynvm|run|F|--pages|7|--limit|x", "limit"),
    ("thynvm|plain|F|--limit|x", "limit"),
    ("thynvm|resume|D|--limit|x", "limit"),
    ("thynvm|bench|x", "n"),
    ("thynvm|bench|", "n"),
    ("thynvm|bench|7,8", "n"),
    ("thynvm|bench|x|--base|y", "n"),
    ("thynvm|bench|7|--base|y", "base"),
    ("thynvm|bench|4294967296|--limit|x", "limit"),
    ("thynvm|make|x|O", "n"),
    ("thynvm|make|+7|O", "n"),
    ("thynvm|make|10000000000000000000|O", "n"),
    ("thynvm|make|00000000000000000007|O", "n"),
    ("thynvm|run|F|--scheme|x", "scheme"),
    ("thynvm|run|F|--scheme|Journal", "scheme"),
    ("thynvm|run|F|--scheme| thynvm", "scheme"),
    ("thynvm|run|F|--scheme=", "scheme"),
    ("thynvm|resume|D|--scheme|1", "scheme"),
    ("thynvm|bench|7|--scheme|journal,thynvm", "scheme"),
    ("thynvm|run|F|--scheme|x|--limit|y", "limit"),
    ("thynvm|run|F|--gap|x|--scheme|y|--pages|7", "scheme"),
    ("thynvm|run|F|--gap|x|--harts|+2", "harts"),
    ("thynvm|compare|F|--gap|x|--limit|y", "limit"),
];

/// Words that give a value out of range, its field, and the value.
static VALUES: [(&str, &str, u64); 32] = [
    ("thynvm|run|F|--base|4097", "base", 4097),
    ("thynvm|run|F|--pages|7", "pages", 7),
    ("thynvm|run|F|--pages|65537", "pages", 65537),
    ("thynvm|run|F|--pages|8|--console|8", "console", 8),
    ("thynvm|run|F|--epoch|0", "epoch", 0),
    ("thynvm|run|F|--btt|12", "btt", 12),
    ("thynvm|run|F|--ptt|520", "ptt", 520),
    ("thynvm|run|F|--sets|48", "sets", 48),
    ("thynvm|run|F|--ways|9", "ways", 9),
    ("thynvm|run|F|--dramq|65|--nvmq|0", "nvmq", 0),
    ("thynvm|run|F|--high|64", "high", 64),
    ("thynvm|run|F|--high|10", "low", 16),
    ("thynvm|run|F|--cuts|0", "cuts", 0),
    ("thynvm|run|F|--cuts|5,5", "cuts", 5),
    ("thynvm|run|F|--cuts|9,8", "cuts", 8),
    (
        "thynvm|run|F|--pages|4096|--cuts|1,2,3,4,5,6,7,8,9,10,11,12,13,14,15,16",
        "cuts",
        69632,
    ),
    ("thynvm|run|F|--tears|1,2", "tears", 2),
    ("thynvm|run|F|--limit|0", "limit", 0),
    ("thynvm|run|F|--limit|1000000000001", "limit", 1000000000001),
    ("thynvm|run|F|--limit|0|--pages|7", "pages", 7),
    ("thynvm|run|F|--harts|0", "harts", 0),
    ("thynvm|bench|7|--harts|3", "harts", 3),
    ("thynvm|resume|D|--gap|1000001|--harts|3", "harts", 3),
    ("thynvm|plain|F|--pages|8|--console|8", "console", 8),
    ("thynvm|resume|D|--pages|7", "pages", 7),
    ("thynvm|compare|F|--gap|1000001", "gap", 1000001),
    ("thynvm|compare|F|--harts|3", "harts", 3),
    ("thynvm|bench|4294967296", "n", 4294967296),
    ("thynvm|bench|4294967296|--base|4097", "n", 4294967296),
    ("thynvm|bench|4294967295|--base|4097", "base", 4097),
    ("thynvm|make|4294967296|O", "n", 4294967296),
    (
        "thynvm|make|9999999999999999999|O",
        "n",
        9999999999999999999,
    ),
];

/// The numbers of a configuration that no option changes, in the order of its fields.
const DEFAULTS: [u64; 14] = [
    65536, 256, 1, 10000, 512, 64, 16, 4, 16, 16, 22, 16, 0, 1000000000,
];

/// A command's name, the name and the number that it is about, which are `""` or 0 if there is none.
type Asked<'a> = (&'a str, &'a str, u64);

/// The name of a command's input, the name under which it saves, and whether it reports digests.
type Expected<'a> = (Option<&'a str>, Option<&'a str>, bool);

/// What a row says of a command and its configuration: the numbers in the order of the fields, the cuts and
/// the tears.
type Row = (
    &'static str,
    Asked<'static>,
    Expected<'static>,
    [u64; 14],
    &'static [u64],
    &'static [u64],
);

/// Words that ask for a command, and the command.
static COMMANDS: [Row; 18] = [
    (
        "thynvm|run|F",
        ("run", "F", 0),
        (None, None, false),
        DEFAULTS,
        &[],
        &[],
    ),
    (
        "any|run|--pages=9|F|--ways|007",
        ("run", "F", 0),
        (None, None, false),
        [
            65536, 9, 1, 10000, 512, 64, 16, 7, 16, 16, 22, 16, 0, 1000000000,
        ],
        &[],
        &[],
    ),
    (
        "thynvm|run|--|-f",
        ("run", "-f", 0),
        (None, None, false),
        DEFAULTS,
        &[],
        &[],
    ),
    (
        "thynvm|run|-|--input|",
        ("run", "-", 0),
        (Some(""), None, false),
        DEFAULTS,
        &[],
        &[],
    ),
    (
        "thynvm|run|",
        ("run", "", 0),
        (None, None, false),
        DEFAULTS,
        &[],
        &[],
    ),
    (
        "thynvm|run|F|--cuts|1,02,70|--tears|9,0,9,5|--mix|9999999999999999999",
        ("run", "F", 0),
        (None, None, false),
        [
            65536,
            256,
            1,
            10000,
            512,
            64,
            16,
            4,
            16,
            16,
            22,
            16,
            9999999999999999999,
            1000000000,
        ],
        &[1, 2, 70],
        &[9, 0, 9, 5],
    ),
    (
        "|run|F|--base|8192|--pages|8|--console|2|--epoch|3|--btt|16|--ptt|24|--sets|1|--ways|5|--nvmq|6|--dramq|7|--high|9|--low|8|--mix|10|--cuts|11|--tears|12|--limit|13|--input|I",
        ("run", "F", 0),
        (Some("I"), None, false),
        [8192, 8, 2, 3, 16, 24, 1, 5, 6, 7, 9, 8, 10, 13],
        &[11],
        &[12],
    ),
    (
        "thynvm|run|F|--digest",
        ("run", "F", 0),
        (None, None, true),
        DEFAULTS,
        &[],
        &[],
    ),
    (
        "thynvm|compare|F",
        ("compare", "F", 0),
        (None, None, false),
        DEFAULTS,
        &[],
        &[],
    ),
    (
        "|compare|F|--base|8192|--pages|8|--console|2|--epoch|3|--btt|16|--ptt|24|--sets|1|--ways|5|--nvmq|6|--dramq|7|--high|9|--low|8|--mix|10|--limit|13|--harts|2|--gap|14|--input|I|--digest",
        ("compare", "F", 0),
        (Some("I"), None, true),
        [8192, 8, 2, 3, 16, 24, 1, 5, 6, 7, 9, 8, 10, 13],
        &[],
        &[],
    ),
    (
        "thynvm|plain|F",
        ("plain", "F", 0),
        (None, None, false),
        DEFAULTS,
        &[],
        &[],
    ),
    (
        "thynvm|plain|--digest|F|--limit|9|--base|8192|--console|2|--pages|8|--input|I",
        ("plain", "F", 0),
        (Some("I"), None, true),
        [8192, 8, 2, 10000, 512, 64, 16, 4, 16, 16, 22, 16, 0, 9],
        &[],
        &[],
    ),
    (
        "thynvm|run|F|--save|S|--input|I",
        ("run", "F", 0),
        (Some("I"), Some("S"), false),
        DEFAULTS,
        &[],
        &[],
    ),
    (
        "thynvm|run|F|--save=|--digest",
        ("run", "F", 0),
        (None, Some(""), true),
        DEFAULTS,
        &[],
        &[],
    ),
    (
        "thynvm|resume|D",
        ("resume", "D", 0),
        (None, None, false),
        DEFAULTS,
        &[],
        &[],
    ),
    (
        "thynvm|resume|--digest|D|--save|D|--input|I|--cuts|5|--tears|1,2",
        ("resume", "D", 0),
        (Some("I"), Some("D"), true),
        DEFAULTS,
        &[5],
        &[1, 2],
    ),
    (
        "thynvm|bench|0",
        ("bench", "", 0),
        (None, None, false),
        DEFAULTS,
        &[],
        &[],
    ),
    (
        "thynvm|bench|--limit|9|04294967295|--save|S|--input|I|--digest",
        ("bench", "", 4294967295),
        (Some("I"), Some("S"), true),
        [65536, 256, 1, 10000, 512, 64, 16, 4, 16, 16, 22, 16, 0, 9],
        &[],
        &[],
    ),
];

/// Words that ask for a run, and the scheme of its configuration.
static SCHEMES: [(&str, SchemeName); 9] = [
    ("thynvm|run|F", SchemeName::Thynvm),
    ("thynvm|run|F|--scheme|thynvm", SchemeName::Thynvm),
    ("thynvm|run|--scheme=journal|F", SchemeName::Journal),
    ("thynvm|resume|D|--scheme|journal", SchemeName::Journal),
    ("thynvm|run|F|--scheme|shadow", SchemeName::Shadow),
    ("thynvm|resume|--scheme=shadow|D", SchemeName::Shadow),
    (
        "thynvm|bench|7|--gap|5|--scheme|journal",
        SchemeName::Journal,
    ),
    ("thynvm|compare|F|--gap|5", SchemeName::Thynvm),
    ("thynvm|plain|F", SchemeName::Thynvm),
];

/// Words that ask for a made program, its number, and the name under which it is put.
static MAKES: [(&str, u64, &str); 4] = [
    ("thynvm|make|0|O", 0, "O"),
    ("thynvm|make|4294967295|-", 4294967295, "-"),
    ("thynvm|make|007|", 7, ""),
    ("thynvm|make|--|7|--save", 7, "--save"),
];

/// The arguments of a row.
fn words_of(rt: &impl Abort, alloc: Global, row: &str) -> Vec<String> {
    let mut words = Vec::new(alloc);
    for word in row.split('|') {
        let word = String::from_str(alloc, word).expect(rt, "memory");
        words.push(word).expect(rt, "memory");
    }
    words
}

/// What words are refused for: the name of the error, the name of its field, and its value.
fn refusal(alloc: Global, words: &[String]) -> (&'static str, &'static str, u64) {
    match settings(alloc, words).err() {
        None => ("not refused", "", 0),
        Some(WordsError::Usage) => ("usage", "", 0),
        Some(WordsError::Word(field)) => ("word", field.name(), 0),
        Some(WordsError::Value(field, value)) => ("value", field.name(), value),
        Some(WordsError::Memory(_)) => ("memory", "", 0),
    }
}

/// Compares what the arguments of a row are refused for with what they should be.
fn refused(rt: &impl Abort, alloc: Global, row: &str, error: &str, field: &str, value: u64) {
    let words = words_of(rt, alloc, row);
    let found = refusal(alloc, words.as_slice());
    expect_at(rt, found, (error, field, value), row);
}

#[test]
fn words_that_are_no_command_line(rt: HostRuntime) {
    for row in &USAGE {
        refused(&rt, rt.alloc(), row, "usage", "", 0);
    }
    expect(&rt, refusal(rt.alloc(), &[]), ("usage", "", 0));
}

#[test]
fn a_word_that_is_no_value_is_refused(rt: HostRuntime) {
    for (row, field) in &WORDS {
        refused(&rt, rt.alloc(), row, "word", field, 0);
    }
}

#[test]
fn a_value_out_of_range_is_refused(rt: HostRuntime) {
    for (row, field, value) in &VALUES {
        refused(&rt, rt.alloc(), row, "value", field, *value);
    }
}

/// The numbers of a configuration in the order of its fields.
fn numbers_of(c: &Config) -> [u64; 14] {
    [
        c.base, c.pages, c.console, c.epoch, c.btt, c.ptt, c.sets, c.ways, c.nvmq, c.dramq, c.high,
        c.low, c.mix, c.limit,
    ]
}

/// The text of a name that may be missing.
fn text(name: &Option<String>) -> Option<&str> {
    match name {
        Some(name) => Some(name.as_str()),
        None => None,
    }
}

/// A command without how it is run.
fn asked(command: &Command) -> Asked<'_> {
    match command {
        Command::Run { file, .. } => ("run", file.as_str(), 0),
        Command::Resume { image, .. } => ("resume", image.as_str(), 0),
        Command::Bench { number, .. } => ("bench", "", *number),
        Command::Compare { file, .. } => ("compare", file.as_str(), 0),
        Command::Plain { file, .. } => ("plain", file.as_str(), 0),
        Command::Make { number, name } => ("make", name.as_str(), *number),
    }
}

/// How a command is run, unless nothing is run.
fn job(command: &Command) -> Option<&Job> {
    match command {
        Command::Run { job, .. }
        | Command::Resume { job, .. }
        | Command::Bench { job, .. }
        | Command::Compare { job, .. }
        | Command::Plain { job, .. } => Some(job),
        Command::Make { .. } => None,
    }
}

/// The command that words ask for.
fn command_of(rt: &impl Abort, alloc: Global, row: &str) -> Command {
    let words = words_of(rt, alloc, row);
    settings(alloc, words.as_slice()).expect(rt, "a command")
}

/// Compares a command with what a row says of it.
fn compare(rt: &impl Abort, command: &Command, row: &Row) {
    let (words, want, reported, numbers, cuts, tears) = row;
    expect_at(rt, asked(command), *want, *words);
    let job = job(command).expect(rt, "a command that runs");
    let found = (text(&job.input), text(&job.save), job.digest);
    expect_at(rt, found, *reported, *words);
    expect_at(rt, &numbers_of(&job.config), numbers, *words);
    expect_at(rt, job.config.cuts.as_slice(), *cuts, *words);
    expect_at(rt, job.config.tears.as_slice(), *tears, *words);
}

#[test]
fn words_ask_for_their_settings(rt: HostRuntime) {
    for row in &COMMANDS {
        let command = command_of(&rt, rt.alloc(), row.0);
        compare(&rt, &command, row);
    }
}

#[test]
fn words_name_a_scheme(rt: HostRuntime) {
    for (row, scheme) in &SCHEMES {
        let command = command_of(&rt, rt.alloc(), row);
        let job = job(&command).expect(&rt, "a command that runs");
        expect_at(&rt, job.config.scheme, *scheme, row);
    }
}

#[test]
fn words_ask_for_a_made_program(rt: HostRuntime) {
    for (words, number, name) in &MAKES {
        let command = command_of(&rt, rt.alloc(), words);
        expect_at(&rt, asked(&command), ("make", *name, *number), words);
        expect_at(&rt, job(&command).is_none(), true, words);
    }
}
