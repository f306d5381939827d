// A refusal as the judge tells it.
ghost use Rattle.std.specs.Prelude.{◌≡◌};
ghost use Rattle.view.specs.Fault.{fault_at};
ghost use Rattle.judge.specs.Walk.{on_page};

use field::Refusal;
use page::Breach;
use view::Fault;

// The refusal of a page as a whole.
pub fn page_fault(refusal: Refusal, page: usize) -> Fault
    ensures { result ≡ fault_at refusal page 0 0 }
{
    Fault {
        refusal,
        page,
        element: 0,
        common: 0,
    }
}

// The verdict on a block as one on page `page`, which the block starts with.
pub fn on_page(page: usize, verdict: Result<(), Breach>) -> Result<(), Fault>
    ensures { result ≡ on_page page verdict }
{
    verdict.map_err(|breach| Fault {
        refusal: breach.refusal,
        page,
        element: breach.element,
        common: breach.common,
    })
}
