// What the halving of a block comes to.
ghost use Rattle.std.specs.Prelude.{◌≡◌};
ghost use Rattle.quick.specs.Halving.{before};

use page::search::Place;

// The place of a key that no element has: low less one, never below 0.
pub fn place_at(low: usize) -> Place
    ensures { result ≡ before low }
{
    Place {
        at: low.saturating_sub(1),
        found: false,
    }
}
