// Step 17, inside an insert (document 01, "The thirty steps"): the records of a chain are divided over it and the new
// chain. A chain of few pages goes by way of small buffers (`split_few`), a longer one is read where it stands.
// Main statements: division_of counts both halves; write_halves is both_written of them; divide_many, divide and
// step_17 are the model's step17, for every word that the memory may hold.

#![tactic(auto)]

ghost use Rattle.std.specs.Prelude.{◌≡◌, List, ℕ, ◌+◌};
ghost use Rattle.model.specs.Steps.SplitBuild as SplitBuild;
ghost use Rattle.records.specs.Work.{seen, left, AtHand};
ghost use Rattle.key_source.specs.Sources.{chosen_of};
ghost use Rattle.chains.specs.Links.{linked_pages};
ghost use Rattle.split_few.specs.Splitting.{both, halved, both_written, after_dividing, CanSplit};
ghost use Rattle.split_build.specs.Dividing.{records_of, staying_from, going_from, Divides, CanDivide, first_need, both_need, CanWriteHalves};

use chain_scan::Looked;
use chain_writer::Planned;
use key_source::{Choice, Halving, Place, Source};
use model::{
    ChainAddress, Damaged, LINK_WORD, PageAddress, Refusal, Restructuring, Root, StepAnswer,
};
use records::Working;
use split_few::Halved;

// A chain to be divided: how, from where, and how many of its records stay and go.
#[derive(Clone, Copy)]
struct Division {
    halving: Halving,
    place: Place,
    staying: u32,
    going: u32,
}

// The division of a chain that was looked through.
fn division_of(root: Root, chain: ChainAddress, l: Looked, pages: &[u32]) -> Division
    requires { CanDivide root pages.now chain.0 l }
    ensures { Divides pages.now (halved root chain.0 (records_of pages.now chain.0 l.pages)) result }
{
    let halving = Halving {
        originals: root.originals,
        level: root.level + 1,
        chain,
    };
    let place = key_source::first_place(pages, PageAddress(chain.0), l.pages);
    let kept = Source {
        choice: Choice::Staying(halving),
        place,
    };
    let staying = key_source::count(pages, kept);
    Division {
        halving,
        place,
        staying,
        going: l.count - staying,
    }
}

// Both halves are written: the staying one to scratch and on to the first free pages, then the other one to its chain.
fn write_halves(
    root: Root,
    d: Division,
    scratch: PageAddress,
    other: PageAddress,
    pages: &mut [u32],
)
    requires { CanWriteHalves root pages.old d scratch.0 other.0 }
    ensures { pages.new ≡ both_written root.capacity (root.level + 1) other.0 scratch.0 (both (chosen_of pages.old (staying_from d)) (chosen_of pages.old (going_from d))) (first_need root d) (linked_pages pages.old (both_need root d) root.head) pages.old }
{
    let level = root.level + 1;
    let halving = d.halving;
    let place = d.place;
    let stay = Planned {
        level,
        left: d.staying,
        source: Source {
            choice: Choice::Staying(halving),
            place,
        },
        to: scratch,
    };
    let go = Planned {
        level,
        left: d.going,
        source: Source {
            choice: Choice::Going(halving),
            place,
        },
        to: other,
    };
    chain_writer::write_chain(root.capacity, &stay, root.head, &Some(go), pages);
}

// The division of a chain of any length: none where too few pages are free.
fn divide_many(work: &Working, pages: &mut [u32]) -> Result<Option<Halved>, Damaged>
    requires { CanSplit work.now pages.old }
    ensures { (ls : List ℕ) → after_dividing (seen work.now ls pages.old) pages.new result ≡ SplitBuild.step17 (seen work.now ls pages.old) }
{
    let root = work.root;
    let chain = ChainAddress(work.party.chain);
    let l = chain_scan::look_through(root, chain, 0, &pages[..])?;
    let d = division_of(root, chain, l, &pages[..]);
    let first = filling::pages_for(root.capacity, d.staying as usize);
    let k = (first + filling::pages_for(root.capacity, d.going as usize)) as u32;
    if root.free < k {
        return Ok(None);
    }
    let head = free_list::draw(root, k, &pages[..])?;
    let scratch = endings::scratch_page(root, work.number);
    write_halves(root, d, scratch, PageAddress(work.party.other), pages);
    Ok(Some(Halved {
        head,
        free: root.free - k,
    }))
}

// The party's chain divided, by one way or the other.
fn divide(work: &Working, pages: &mut [u32]) -> Result<Option<Halved>, Damaged>
    requires { CanSplit work.now pages.old }
    ensures { (ls : List ℕ) → after_dividing (seen work.now ls pages.old) pages.new result ≡ SplitBuild.step17 (seen work.now ls pages.old) }
{
    let n = chain_keys::walk(work.root, ChainAddress(work.party.chain), &pages[..])?;
    if n <= chain_keys::FEW {
        split_few::divide_few(work, n, pages)
    } else {
        divide_many(work, pages)
    }
}

// "17 divide the chain's keys: keys whose h_(level+1) is the chain stay, the rest go." "n = P at 17" is damage.
pub fn step_17(
    work: &mut Working,
    locks: &mut [u32],
    pages: &mut [u32],
) -> Result<StepAnswer, Refusal>
    requires { AtHand work.old locks.old pages.old }
    ensures { left result work.new locks.new pages.new ≡ SplitBuild.step17 (seen work.old locks.old pages.old) }
{
    if addresses::split_barred(work.root) {
        return Err(Refusal::Damage);
    }
    let link = pages::word(&pages[..], PageAddress(work.party.chain), LINK_WORD);
    let Some(m) = divide(&*work, pages)? else {
        let claimed = last_locks::split_locks(work.party);
        return last_locks::ended_with(work, locks, pages, &claimed, Restructuring::SplitSkipped);
    };
    work.root.head = m.head;
    work.root.free = m.free;
    work.party.old = link;
    work.party.step = 18;
    Ok(StepAnswer::Moved)
}
