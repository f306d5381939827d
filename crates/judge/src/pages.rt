// Rule 3: a block uses all its pages, and no page is used twice.
ghost use Rattle.std.specs.Prelude.{◌≡◌, ◌-◌, ◌≤◌, length};
ghost use Rattle.field.specs.Marks.{with_marks};
ghost use Rattle.field.specs.Refusal.{on_ok};
ghost use Rattle.judge.specs.Walk.{taken_of};

use super::fault::page_fault;
use field::Refusal;
use field::marks::{lowest_marked, mark_pages};
use view::Fault;

// Marks the pages from `q` up to `end`, if none is marked yet; else the lowest that was marked before is refused.
pub fn take_pages(marks: &mut [u64; 512], q: usize, end: usize) -> Result<(), Fault>
    requires { (q ≤ end) × (end ≤ 32768) }
    ensures { (result ≡ taken_of marks.old q end)
        × (marks.new ≡ on_ok result (with_marks marks.old q (end - q)) marks.old) }
{
    let twice = lowest_marked(marks, q, end);
    if twice < end {
        return Err(page_fault(Refusal::UsedTwice, twice));
    }
    mark_pages(marks, q, end);
    Ok(())
}
