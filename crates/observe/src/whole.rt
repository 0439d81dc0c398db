//! The whole text that is put under OUT.
ghost use Rattle.std.specs.Prelude.{IfSome, string_bytes};
ghost use Rattle.observe.specs.CountText.{HasWhole, nvm_counts};

use crate::beginning::Begun;
use crate::counts::with_counts;
use crate::head::{Asked, text_of};
use crate::options::Options;
use crate::sections::with_sections;
use crate::wear::with_wear;
use std::alloc::Global;
use thy_cli::Answer;
use thy_observe::{Counts, Watch};

/// The text for an answer, with what the options ask for in addition; none if memory ran out for what was seen, or for it.
pub fn whole_text<C: Counts>(
    alloc: Global,
    asked: Asked,
    answer: &Answer,
    options: Options,
    begun: Option<Begun>,
    watch: &Watch,
    nvm: &C,
) -> Option<String>
    ensures { let events = answer.now.events.last in
        let counted = nvm_counts (C.calls nvm.now) (C.wear nvm.now) in
        IfSome result (λ whole. HasWhole asked events options begun watch.now counted (string_bytes whole)) }
{
    let calls = nvm.calls();
    let events = answer.events.last();
    let Ok(head) = text_of(alloc, asked, &watch.tally, &calls, events) else {
        return None;
    };
    let text = with_sections(alloc, head, options, begun, &watch.changes)?;
    let counted = with_counts(alloc, text, options, watch)?;
    with_wear(alloc, counted, options.wear, nvm.wear())
}
