//! The program that exits with 7, cut once in its first cycle or in that which writes the last commit block, and once more
//! at each cycle of the boot after that: whole reports.
use crate::support::by_scheme::SMALL;
use crate::support::calls::expect;
use std::alloc::Global;
use std::process::Abort;

/// A scheme, and cycles of its boots.
pub(crate) struct Boots {
    pub(crate) scheme: &'static str,
    /// A first cut after this cycle leaves the checkpoint of epoch 0.
    pub(crate) cut: u64,
    /// A second cut after this cycle, or a later one, is after a restart.
    pub(crate) restarted: u64,
    /// Before this cycle a loading that begins in cycle 2 has written no commit block.
    pub(crate) loaded: u64,
}

/// A boot that finds the checkpoint of epoch 0 has ten actions: the reads of the commit block, of the header and of the
/// slot's eight blocks.
static BY_THYNVM: Boots = Boots {
    scheme: "thynvm",
    cut: 721,
    restarted: 731,
    loaded: 699,
};

/// Cuts after the cycle which leaves the checkpoint of epoch 0, and after this one.
fn cut_recovery(rt: &impl Abort, alloc: Global, boots: &Boots, cycle: u64) {
    let (scheme, cut) = (boots.scheme, boots.cut);
    let line = format!(in alloc;
        "thynvm run F {SMALL} {scheme} --cuts {cut},{cycle} --tears 0"
    ).expect(rt, "memory");
    let between = if cycle < boots.restarted {
        ""
    } else {
        "restart 0 at 0\n"
    };
    let report = format!(in alloc;
        "commit 0 overlapped 0\n\
         epoch 1 ends at 3 by end\n\
         cut 1 at cycle {cut}\n\
         {between}\
         cut 2 at cycle {cycle}\n\
         restart 0 at 0\n\
         epoch 1 ends at 3 by end\n\
         commit 1 overlapped 0\n\
         exit 7 at 3\n"
    )
    .expect(rt, "memory");
    expect(rt, alloc, line.as_str(), 0, report.as_str());
}

/// A second cut at each cycle of a recovery, and at the first after a restart.
pub(crate) fn cut_recoveries(rt: &impl Abort, alloc: Global, boots: &Boots) {
    for cycle in boots.cut.saturating_add(1)..=boots.restarted {
        cut_recovery(rt, alloc, boots, cycle);
    }
}

#[test]
fn a_recovery_is_cut_at_each_of_its_cycles(rt: HostRuntime) {
    cut_recoveries(&rt, rt.alloc(), &BY_THYNVM);
}

/// Cuts after the first cycle and after this one.
fn cut_loading(rt: &impl Abort, alloc: Global, scheme: &str, cycle: u64) {
    let line = format!(in alloc; "thynvm run F {SMALL} {scheme} --cuts 1,{cycle} --tears 0").expect(
        rt, "memory",
    );
    let report = format!(in alloc;
        "cut 1 at cycle 1\n\
         reload\n\
         cut 2 at cycle {cycle}\n\
         reload\n\
         commit 0 overlapped 0\n\
         epoch 1 ends at 3 by end\n\
         commit 1 overlapped 0\n\
         exit 7 at 3\n"
    )
    .expect(rt, "memory");
    expect(rt, alloc, line.as_str(), 0, report.as_str());
}

/// At each cycle of the loading after the first cut.
pub(crate) fn cut_loadings(rt: &impl Abort, alloc: Global, boots: &Boots) {
    for cycle in 2..boots.loaded {
        cut_loading(rt, alloc, boots.scheme, cycle);
    }
}

#[test]
fn a_loading_is_cut_at_each_of_its_cycles(rt: HostRuntime) {
    cut_loadings(&rt, rt.alloc(), &BY_THYNVM);
}
