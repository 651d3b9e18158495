//! What is to be measured.
ghost use Rattle.std.specs.Prelude.{◌<◌, ◌≤◌, IfSome};

/// What is to be done.
#[derive(Clone, Copy)]
pub(crate) enum Work {
    /// All pointers are counted again, and what the root reaches is marked.
    Audit,
    /// What the root reaches is marked.
    Marks,
}

/// How the objects name each other.
#[derive(Clone, Copy)]
pub(crate) enum Graph {
    /// Each slot names an object drawn at random.
    Random,
    /// Each object names the next one.
    Chain,
}

/// What holds the objects.
#[derive(Clone, Copy)]
pub(crate) enum Store {
    /// The pages of the largest store.
    Pages,
    /// Cells alone, 64 times as many.
    Cells,
}

/// By what it is done.
#[derive(Clone, Copy)]
pub(crate) enum How {
    /// By one thread, as if there were no pieces.
    Plain,
    /// By one piece.
    One,
    /// By two pieces.
    Two,
    /// By four pieces.
    Four,
}

impl How {
    /// By how many pieces, if by any.
    pub(crate) fn pieces(self) -> Option<usize>
        ensures { IfSome result (λ n. (0 < n) × (n ≤ 4)) }
    {
        match self {
            How::Plain => None,
            How::One => Some(1),
            How::Two => Some(2),
            How::Four => Some(4),
        }
    }
}

/// What is to be measured.
#[derive(Clone, Copy)]
pub(crate) struct Order {
    pub(crate) work: Work,
    pub(crate) graph: Graph,
    pub(crate) store: Store,
    pub(crate) how: How,
}

impl Order {
    /// What these words ask, if that is anything.
    pub(crate) fn of(work: &str, graph: &str, store: &str, how: &str) -> Option<Order> {
        let work = match work {
            "audit" => Work::Audit,
            "marks" => Work::Marks,
            _ => return None,
        };
        let graph = match graph {
            "random" => Graph::Random,
            "chain" => Graph::Chain,
            _ => return None,
        };
        let store = match store {
            "pages" => Store::Pages,
            "cells" => Store::Cells,
            _ => return None,
        };
        let how = match how {
            "plain" => How::Plain,
            "1" => How::One,
            "2" => How::Two,
            "4" => How::Four,
            _ => return None,
        };
        Some(Order {
            work,
            graph,
            store,
            how,
        })
    }
}
