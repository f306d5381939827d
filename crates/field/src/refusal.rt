// Why a call is refused.
ghost use Rattle.std.specs.Prelude.{◌≡◌};
ghost use Rattle.field.specs.Refusal.{number_of};

// The causes of a refusal, in the order of their numbers.
#[derive(Clone, Copy)]
pub enum Refusal {
    Geometry,
    PageNumber,
    Header,
    Table,
    Element,
    KeyOrder,
    KeyRange,
    UsedTwice,
    TooDeep,
    OutputShort,
    Argument,
    Full,
    Hash,
    Conflict,
    NodeTooLarge,
}

impl From<Refusal> for u64 {
    ghost from_gives = { λ refusal number. number ≡ number_of refusal };

    // The number that C has for a cause, from 1 on.
    fn from(refusal: Refusal) -> u64 {
        match refusal {
            Refusal::Geometry => 1,
            Refusal::PageNumber => 2,
            Refusal::Header => 3,
            Refusal::Table => 4,
            Refusal::Element => 5,
            Refusal::KeyOrder => 6,
            Refusal::KeyRange => 7,
            Refusal::UsedTwice => 8,
            Refusal::TooDeep => 9,
            Refusal::OutputShort => 10,
            Refusal::Argument => 11,
            Refusal::Full => 12,
            Refusal::Hash => 13,
            Refusal::Conflict => 14,
            Refusal::NodeTooLarge => 15,
        }
    }
}
