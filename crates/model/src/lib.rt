// The types and the numbers of the bead index: what the definitions in specs/ speak of and the code works on.
// Limits, the layout of a page, the numbers that records hold; why a call is refused; the root record, a party's
// record, lock modes, answers, and the two kinds of address. The code here turns damage into a refusal, and a refusal
// into the table's number.

#![tactic(auto)]

ghost use Rattle.std.specs.Prelude.{◌≡◌};
ghost use Rattle.model.specs.Answers.{cause_number};

// ---- Limits (document 01, "What it covers")

// "P chains at most, 1 to 256."
pub const MOST_PRIMARIES: u32 = 256;

// "V overflow pages, 0 to 752."
pub const MOST_OVERFLOW: u32 = 752;

// "Q parties, 1 to 16."
pub const MOST_PARTIES: u32 = 16;

// "b is 1 to 6": the most records that a page holds.
pub const MOST_RECORDS: u32 = 6;

// ---- A page (document 01, "The lent memory")

// "Pages are lent as 32-bit words, sixteen to a page."
pub const PAGE_WORDS: usize = 16;

// The words of one page, by value.
pub type Page = [u32; PAGE_WORDS];

// "Word 0 is the local level ..., word 1 the key count, word 2 the link ...", "words 3 to 14 of a page hold six such
// pairs, key first".
pub const LEVEL_WORD: usize = 0;

pub const COUNT_WORD: usize = 1;

pub const LINK_WORD: usize = 2;

pub const FIRST_RECORD: usize = 3;

// The words that a record takes on a page: its key, then its setting.
pub const RECORD_WORDS: usize = 2;

// ---- Numbers in a party's record (document 01, "The lent memory")

// "operation (0 idle, 1 find, 2 insert, 3 delete)".
pub const IDLE: u32 = 0;

pub const FIND: u32 = 1;

pub const INSERT: u32 = 2;

pub const DELETE: u32 = 3;

// "restructure owed (0 none, 1 split, 2 merge, 3 split made)".
pub const OWES_NONE: u32 = 0;

pub const OWES_SPLIT: u32 = 1;

pub const OWES_MERGE: u32 = 2;

pub const SPLIT_MADE: u32 = 3;

// "answer so far (0 none, 1 inserted, 2 present, 3 deleted, 4 absent, 5 no page)".
pub const NO_ANSWER: u32 = 0;

pub const INSERTED: u32 = 1;

pub const PRESENT: u32 = 2;

pub const DELETED: u32 = 3;

pub const ABSENT: u32 = 4;

pub const NO_PAGE: u32 = 5;

// ---- Refusals (document 01, "Refused calls"; document 02, changes 2 and 6)

// Why a call is refused, in the order in which the tests run; `cause_number` (specs/Answers.antt) has the table's
// number of each.
#[derive(Clone, Copy, PartialEq, Eq)]
pub enum Refusal {
    // "a size outside its limits".
    Size,
    // "a lent length other than" what the sizes ask for.
    Length,
    // "8 when a condition fails, tested after 2 and 1": take-up alone meets it.
    Unsaved,
    // "party number Q or above".
    Party,
    // "begin for a party not idle".
    Busy,
    // "step for an idle party".
    Idle,
    // "7 when the decisive step has been taken": withdraw alone meets it.
    Decided,
    // "a damaged number".
    Damage,
}

// A damaged number was met where a chain or the free list is walked.
#[derive(Clone, Copy, PartialEq, Eq)]
pub struct Damaged;

impl From<Damaged> for Refusal {
    ghost use Rattle.model.specs.declared.Refusal.{Refusal};

    ghost from_gives = { λ _ r. r ≡ Refusal.Damage };

    fn from(_damaged: Damaged) -> Refusal {
        Refusal::Damage
    }
}

impl From<Refusal> for u32 {
    ghost from_gives = { λ c n. n ≡ cause_number c };

    #[tactic(auto, unfolding(crate::specs::Answers::cause_number))]
    fn from(refusal: Refusal) -> u32 {
        match refusal {
            Refusal::Length => 1,
            Refusal::Size => 2,
            Refusal::Party => 3,
            Refusal::Busy => 4,
            Refusal::Idle => 5,
            Refusal::Damage => 6,
            Refusal::Decided => 7,
            Refusal::Unsaved => 8,
        }
    }
}

// ---- Records

// The root record (document 01, "The lent memory"). Document 01 calls the first five N, b, P, V and Q.
#[repr(C)]
#[derive(Clone, Copy, PartialEq, Eq, Default)]
pub struct Root {
    pub originals: u32,
    // The most records that a page holds.
    pub capacity: u32,
    // Primary pages, one a chain: the most chains that there may be.
    pub primaries: u32,
    pub overflow: u32,
    pub parties: u32,
    pub level: u32,
    pub next: u32,
    // The first free page plus one, 0 for none.
    pub head: u32,
    // How many pages are free.
    pub free: u32,
}

// The sizes that a file is formatted with, as in the root record: N, b, P, V and Q.
#[derive(Clone, Copy, PartialEq, Eq)]
pub struct FileSizes {
    pub originals: u32,
    pub capacity: u32,
    pub primaries: u32,
    pub overflow: u32,
    pub parties: u32,
}

// A party's record (document 01, "The lent memory"). `old` is the old overflow link, a link word.
#[repr(C)]
#[derive(Clone, Copy, PartialEq, Eq, Default)]
pub struct Party {
    pub operation: u32,
    pub key: u32,
    pub step: u32,
    pub lev: u32,
    pub chain: u32,
    pub other: u32,
    pub old: u32,
    pub owed: u32,
    pub answer: u32,
    // An insert's setting; 0 for a find or a delete.
    pub setting: u32,
}

// A record of the file: "a key and a 32-bit setting".
#[derive(Clone, Copy, PartialEq, Eq)]
pub struct Entry {
    pub key: u32,
    pub setting: u32,
}

// A bucket chain's number: that of its primary page and, plus one, of its lock word.
#[derive(Clone, Copy, PartialEq, Eq)]
pub struct ChainAddress(pub u32);

// A page's number, counted over primary, overflow and scratch pages.
#[derive(Clone, Copy, PartialEq, Eq)]
pub struct PageAddress(pub u32);

// The three kinds of lock, weakest first.
#[derive(Clone, Copy, PartialEq, Eq)]
pub enum Mode {
    Read,
    Selective,
    Exclusive,
}

// What a party can begin, beside its key. An insert has the setting that goes into the file with the key.
#[derive(Clone, Copy, PartialEq, Eq)]
pub enum Operation {
    Find,
    Insert(u32),
    Delete,
}

// What an operation answers. Found has the setting of the key.
#[derive(Clone, Copy, PartialEq, Eq)]
pub enum OperationAnswer {
    Found(u32),
    Absent,
    Inserted,
    Present,
    Deleted,
    NoPage,
}

// The restructuring that an operation made or skipped.
#[derive(Clone, Copy, PartialEq, Eq)]
pub enum Restructuring {
    None,
    Split,
    SplitSkipped,
    Merged,
    MergeSkipped,
}

// What a call of step answers that is not refused.
#[derive(Clone, Copy, PartialEq, Eq)]
pub enum StepAnswer {
    Waiting,
    Moved,
    Done(OperationAnswer, Restructuring),
}

// What one step leaves beside the lent words.
#[derive(Clone, Copy, PartialEq, Eq)]
pub struct Stepped {
    pub root: Root,
    pub party: Party,
    pub answer: Result<StepAnswer, Refusal>,
}
