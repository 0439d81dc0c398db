//! The lines of events and of closings, and the digest's.
use crate::support::expect::expect;
use std::alloc::Global;
use std::process::Abort;
use thy_base::{Bytes, EndCause, Field, SchemeName, Sink, SinkError};
use thy_isa::{MachState, Regs, Status};
use thy_layout::BadImage;
use thy_text::{
    Closing, Event, Events, FetchFault, History, Reporting, digest, write_closing, write_ended,
    write_event, write_made, write_scheme, write_summary,
};

/// How events of one hart are reported, without digests.
const ALONE: Reporting = Reporting {
    digest: false,
    harts: 1,
};

/// How events of one hart are reported, with digests.
const DIGESTING: Reporting = Reporting {
    digest: true,
    harts: 1,
};

/// How events of two harts are reported.
const PAIR: Reporting = Reporting {
    digest: false,
    harts: 2,
};

/// A sink that keeps its pieces, none of which is empty.
#[derive(Drop)]
struct Page {
    bytes: Vec<u8>,
    writes: u64,
    faults: u64,
}

impl Sink for Page {
    ghost use Rattle.std.specs.Prelude.{None};

    ghost stream = { λ p. record { taken = None; faults = p.faults } };

    fn write(&mut self, piece: &[u8]) -> Result<(), SinkError> {
        self.writes = self.writes.saturating_add(1);
        if piece.is_empty() || self.bytes.extend_from_slice(piece).is_err() {
            self.faults = self.faults.saturating_add(1);
            return Err(SinkError::Failed);
        }
        Ok(())
    }
}

/// A page with nothing on it.
fn blank(alloc: Global) -> Page {
    Page {
        bytes: Vec::new(alloc),
        writes: 0,
        faults: 0,
    }
}

#[test]
fn events_have_their_lines(rt: HostRuntime) {
    let exhausted = EndCause::Exhausted {
        free: 8,
        dirty: 9,
        need: 1,
    };
    let mut page = blank(rt.alloc());
    let mut events = Events::new(rt.alloc());
    for event in [
        Event::Scheme { number: 2 },
        Event::Commit {
            epoch: 0,
            cycle: 698,
            overlapped: 0,
        },
        Event::EpochEnd {
            epoch: 1,
            count: 8,
            cause: exhausted,
            turns: Bytes::new(rt.alloc()),
        },
        Event::Cut {
            index: 1,
            cycle: 1391,
        },
        Event::Reload,
    ] {
        events.push(event).expect(&rt, "memory");
    }
    for i in 0..events.len() {
        expect(&rt, write_event(events.get(i), ALONE, &mut page), Ok(()));
    }
    let text =
        b"commit 0 overlapped 0\nepoch 1 ends at 8 by exhausted 8 9 1\ncut 1 at cycle 1391\nreload\n";
    expect(&rt, page.bytes.as_slice(), text.as_slice());
}

#[test]
fn an_epoch_of_two_harts_reports_how_many_instructions_each_retired(rt: HostRuntime) {
    let exhausted = EndCause::Exhausted {
        free: 8,
        dirty: 9,
        need: 1,
    };
    let mut page = blank(rt.alloc());
    for (cause, turns) in [
        (EndCause::Length, [0, 1, 0, 0, 1, 0, 0].as_slice()),
        (exhausted, [1, 1, 1].as_slice()),
        (EndCause::Ended, [0].as_slice()),
        (exhausted, [0; 0].as_slice()),
    ] {
        let event = Event::EpochEnd {
            epoch: 1,
            count: 8,
            cause,
            turns: bytes_of(&rt, rt.alloc(), turns),
        };
        expect(&rt, write_event(&event, PAIR, &mut page), Ok(()));
    }
    let text =
        b"epoch 1 ends at 8 by length harts 5 2\nepoch 1 ends at 8 by exhausted 8 9 1 harts 0 3\nepoch 1 ends at 8 by end harts 1 0\nepoch 1 ends at 8 by exhausted 8 9 1 harts 0 0\n";
    expect(&rt, page.bytes.as_slice(), text.as_slice());
}

#[test]
fn the_longest_line_of_an_event_is_written_at_once(rt: HostRuntime) {
    let most = u64::MAX;
    let cause = EndCause::Exhausted {
        free: most,
        dirty: most,
        need: most,
    };
    let event = Event::EpochEnd {
        epoch: most,
        count: most,
        cause,
        turns: Bytes::new(rt.alloc()),
    };
    let mut page = blank(rt.alloc());
    expect(&rt, write_event(&event, ALONE, &mut page), Ok(()));
    let digits = 5 * 20;
    let words = b"epoch  ends at  by exhausted   \n".len();
    expect(&rt, page.bytes.len(), words + digits);
    expect(&rt, page.writes, 1);
}

/// The closings that report a field, a name or a number.
static CLOSINGS: [Closing<'static>; 17] = [
    Closing::Word(Field::Pages),
    Closing::Value(Field::Low, 16),
    Closing::Fetch("F", FetchFault::TooLong),
    Closing::Fetch("", FetchFault::Missing),
    Closing::File(1, "TooShort"),
    Closing::FileAt(17, "SegmentOutsideMemory", 0),
    Closing::Limit(717),
    Closing::Word(Field::N),
    Closing::Value(Field::N, 4294967296),
    Closing::Put("D"),
    Closing::Image(BadImage::Empty),
    Closing::Image(BadImage::TableIndex(5)),
    Closing::Image(BadImage::TableTwice(0, 1)),
    Closing::Image(BadImage::BlockUnderPage(3, 0)),
    Closing::Image(BadImage::ConsoleLength),
    Closing::Image(BadImage::Count(7)),
    Closing::Input {
        cursor: 4,
        length: 2,
    },
];

#[test]
fn closings_have_their_lines(rt: HostRuntime) {
    let mut page = blank(rt.alloc());
    for closing in &CLOSINGS {
        expect(&rt, write_closing(*closing, &mut page), Ok(()));
    }
    let text =
        b"word pages\nvalue low 16\nfetch F too long\nfetch  missing\nfile 1 TooShort\nfile 17 SegmentOutsideMemory 0\nlimit 717\nword n\nvalue n 4294967296\nput D failed\nimage 1 Empty\nimage 6 TableIndex 5\nimage 7 TableTwice 0 1\nimage 8 BlockUnderPage 3 0\nimage 10 ConsoleLength\nimage 11 Count 7\ninput 4 2\n";
    expect(&rt, page.bytes.as_slice(), text.as_slice());
}

/// A commit with `overlapped` instructions overlapped.
fn commit(overlapped: u64) -> Event {
    Event::Commit {
        epoch: 0,
        cycle: 698,
        overlapped,
    }
}

/// The end of an epoch by this cause.
fn epoch_end(alloc: Global, cause: EndCause) -> Event {
    Event::EpochEnd {
        epoch: 1,
        count: 8,
        cause,
        turns: Bytes::new(alloc),
    }
}

#[test]
fn a_run_is_summed_up(rt: HostRuntime) {
    let exhausted = EndCause::Exhausted {
        free: 8,
        dirty: 9,
        need: 1,
    };
    let mut page = blank(rt.alloc());
    let mut events = Events::new(rt.alloc());
    expect(&rt, write_summary(&events, &mut page), Ok(()));
    for event in [
        commit(0),
        epoch_end(rt.alloc(), exhausted),
        commit(5),
        epoch_end(rt.alloc(), EndCause::Length),
        Event::Cut {
            index: 1,
            cycle: 1391,
        },
        Event::Reload,
        commit(u64::MAX),
        epoch_end(rt.alloc(), EndCause::Ended),
    ] {
        events.push(event).expect(&rt, "memory");
    }
    expect(&rt, write_summary(&events, &mut page), Ok(()));
    expect(&rt, write_made(0, 24148, &mut page), Ok(()));
    let scheme = SchemeName::Journal;
    expect(&rt, write_scheme(scheme, &events, 531, &mut page), Ok(()));
    let text =
        b"summary epochs 0 early 0 overlapped 0\nsummary epochs 3 early 1 overlapped 18446744073709551620\nmade 0 24148\nscheme journal epochs 3 early 1 overlapped 18446744073709551620 writes 531\n";
    expect(&rt, page.bytes.as_slice(), text.as_slice());
}

/// The index of a cut; 0 for any other event.
fn index_of(event: &Event) -> u64 {
    match event {
        Event::Cut { index, .. } => *index,
        _ => 0,
    }
}

/// Cuts of these indexes.
fn cuts(rt: &impl Abort, alloc: Global, indexes: &[u64]) -> Events {
    let mut events = Events::new(alloc);
    for index in indexes {
        let event = Event::Cut {
            index: *index,
            cycle: 9,
        };
        events.push(event).expect(rt, "memory");
    }
    events
}

#[test]
fn lists_of_events_follow_one_another(rt: HostRuntime) {
    let alloc = rt.alloc();
    let mut first = cuts(&rt, alloc, &[1, 2]);
    let mut more = cuts(&rt, alloc, &[3, 4, 5]);
    first.append(&mut more).expect(&rt, "memory");
    expect(&rt, (first.len(), more.len()), (5, 0));
    first.pop();
    more.pop();
    expect(&rt, (first.len(), more.len()), (4, 0));
    let history = History::new(first, cuts(&rt, alloc, &[5, 6]));
    expect(&rt, (history.len(), history.last().len()), (6, 2));
    for i in 0..history.len() {
        expect(&rt, index_of(history.get(i)), i as u64 + 1);
    }
    let history = History::of(alloc, cuts(&rt, alloc, &[7]));
    expect(&rt, history.last().len(), 1);
    assert!(rt; history.len() == 1);
    expect(&rt, index_of(history.get(0)), 7);
}

/// Bytes in memory of their own.
fn bytes_of(rt: &impl Abort, alloc: Global, bytes: &[u8]) -> Bytes {
    let mut copy = Bytes::new(alloc);
    copy.extend(bytes).expect(rt, "memory");
    copy
}

/// A state with this memory, a console and this status, after seven steps.
fn state_with(memory: Bytes, console: Bytes, status: Status) -> MachState {
    MachState {
        pc: 65536,
        regs: Regs::new(),
        memory,
        console,
        cursor: 0,
        brk: 65536,
        floor: 65536,
        count: 7,
        status,
        other: None,
    }
}

/// The digests are what `printf 'abc' | sha256sum` and `head -c 4096 /dev/zero | sha256sum` print.
#[test]
fn memory_has_its_digest(rt: HostRuntime) {
    let memory = bytes_of(&rt, rt.alloc(), b"abc");
    let console = bytes_of(&rt, rt.alloc(), b"out");
    let abc = state_with(memory, console, Status::Exited(3));
    expect(&rt, digest(&abc)[0], 0xba);
    let mut page = blank(rt.alloc());
    expect(&rt, write_ended(&abc, false, &mut page), Ok(()));
    expect(&rt, write_ended(&abc, true, &mut page), Ok(()));
    let memory = bytes_of(&rt, rt.alloc(), &[0; 4096]);
    let console = bytes_of(&rt, rt.alloc(), b"out");
    let zeros = state_with(memory, console, Status::Running);
    expect(&rt, write_ended(&zeros, true, &mut page), Ok(()));
    let restart = Event::Restart {
        epoch: 2,
        count: 7,
        state: zeros,
    };
    expect(&rt, write_event(&restart, DIGESTING, &mut page), Ok(()));
    let text =
        b"exit 3 at 7\nexit 3 at 7\nmemory ba7816bf8f01cfea414140de5dae2223b00361a396177a9cb410ff61f20015ad\nrestart 2 at 7\nmemory ad7facb2586fc6e966c004d7d1d16b024f5805ff7cb47c7a85dabd8b48892ca7\n";
    expect(&rt, page.bytes.as_slice(), text.as_slice());
}
