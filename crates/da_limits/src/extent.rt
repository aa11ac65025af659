//! How large the inlined text of statements is.
ghost use Rattle.da_limits.specs.Extents.{beside, deeper, one, nothing, wider};
ghost use Rattle.da_lang.specs.Limits.{most_blocks, most_items, most_variables};
ghost use Rattle.std.specs.Prelude.{◌≡◌, nat_lt};

use crate::numbers::{MOST_BLOCKS, MOST_ITEMS, MOST_VARIABLES};

/// How large a text is with its calls inlined: its statements, its blocks within each other, and the slots that it
/// adds. A number that does not fit stands at the greatest that does, which is above each limit.
#[derive(Clone, Copy)]
pub struct Extent {
    pub items: u16,
    pub blocks: u16,
    pub slots: u16,
}

impl Extent {
    /// No statements.
    #[tactic(auto, unfolding(crate::specs::Extents::nothing))]
    pub fn nothing() -> Extent
        ensures { result ≡ nothing }
    {
        Extent {
            items: 0,
            blocks: 0,
            slots: 0,
        }
    }

    /// Two texts, one after the other.
    #[tactic(auto, unfolding(crate::specs::Extents::beside))]
    pub fn beside(self, other: Extent) -> Extent
        ensures { result ≡ beside self other }
    {
        Extent {
            items: self.items.saturating_add(other.items),
            blocks: self.blocks.max(other.blocks),
            slots: self.slots.saturating_add(other.slots),
        }
    }

    /// A statement that holds this.
    #[tactic(auto, unfolding(crate::specs::Extents::one))]
    pub fn one(self) -> Extent
        ensures { result ≡ one self }
    {
        Extent {
            items: self.items.saturating_add(1),
            ..self
        }
    }

    /// A block of these statements.
    #[tactic(auto, unfolding(crate::specs::Extents::deeper))]
    pub fn deeper(self) -> Extent
        ensures { result ≡ deeper self }
    {
        Extent {
            blocks: self.blocks.saturating_add(1),
            ..self
        }
    }

    /// The same with so many slots besides.
    #[tactic(auto, unfolding(crate::specs::Extents::wider))]
    pub fn wider(self, count: u16) -> Extent
        ensures { result ≡ wider count self }
    {
        Extent {
            slots: self.slots.saturating_add(count),
            ..self
        }
    }

    /// Whether there are too many statements.
    #[tactic(auto, using(crate::proofs::LimitLinesAt::limit_rules))]
    pub fn has_many_items(self) -> bool
        ensures { result ≡ nat_lt most_items self.items }
    {
        self.items > MOST_ITEMS
    }

    /// Whether too many blocks are within each other.
    #[tactic(auto, using(crate::proofs::LimitLinesAt::limit_rules))]
    pub fn has_many_blocks(self) -> bool
        ensures { result ≡ nat_lt most_blocks self.blocks }
    {
        self.blocks > MOST_BLOCKS
    }

    /// Whether there are too many slots.
    #[tactic(auto, using(crate::proofs::LimitLinesAt::limit_rules))]
    pub fn has_many_slots(self) -> bool
        ensures { result ≡ nat_lt most_variables self.slots }
    {
        self.slots > MOST_VARIABLES
    }
}
