// A breach of a rule, as a check of one block tells it.
ghost use Rattle.std.specs.Prelude.{◌≡◌};
ghost use Rattle.page.specs.PageRules.{breach};

use field::Refusal;

// Its cause, the element, and the length of the common beginning of the two keys that it speaks of, 0 where there is none.
#[derive(Clone, Copy)]
pub struct Breach {
    pub refusal: Refusal,
    pub element: usize,
    pub common: usize,
}

impl From<Refusal> for Breach {
    ghost from_gives = { λ refusal b. b ≡ breach refusal 0 0 };

    // The breach that names no element.
    fn from(refusal: Refusal) -> Breach {
        Breach {
            refusal,
            element: 0,
            common: 0,
        }
    }
}
