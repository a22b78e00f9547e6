//! The list of the spans that stand. It exists in proofs alone, and has no bytes.
ghost use Rattle.std.specs.Prelude.{◌≡◌, List, [], ◌∷◌};
ghost use Rattle.std.specs.Borrow.{ftrue};
ghost use Rattle.std.specs.Coded.{coded_list};
ghost use Rattle.eco_bench.specs.declared.span.Span.{Span};
ghost use Rattle.eco_bench.specs.Spans.{before, span_code};

use crate::span::{Mark, Span};
use std::marker::Model;

#[derive(Drop)]
pub(crate) struct Standing {
    pub(crate) ghost spans: { List Span } by { coded_list span_code },
}

impl Model for Standing {
    ghost also_owns = { λ _. ftrue };
}

impl Standing {
    pub(crate) fn new() -> Standing
        ensures { result.spans ≡ [] }
    {
        Standing {}
    }

    /// The list with one span more, in front.
    pub(crate) fn with(_list: &Standing, _span: &Span) -> Standing
        ensures { result.spans ≡ _span.now ∷ _list.now.spans }
    {
        Standing {}
    }

    /// The spans of the list that end before the mark.
    pub(crate) fn until(_list: &Standing, _mark: &Mark) -> Standing
        ensures { result.spans ≡ before _mark.now _list.now.spans }
    {
        Standing {}
    }
}

// It owns nothing.
unsafe impl Send for Standing {}

unsafe impl Sync for Standing {}
