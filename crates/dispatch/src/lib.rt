// The step that a party's record names (document 01, "The thirty steps"): matches over the step numbers, grouped by
// the operations that have them.
// Main statement: step_by_number is the model's step_of, for every word that the memory may hold.

#![tactic(auto)]

ghost use Rattle.std.specs.Prelude.{◌≡◌, ◌≤◌};
ghost use Rattle.model.specs.Steps.Dispatch.{step_of};
ghost use Rattle.records.specs.Work.{seen, left, AtHand};

use model::{Refusal, StepAnswer};
use records::Working;

// 1 to 8, which find, insert and delete have.
fn locate_step(
    work: &mut Working,
    locks: &mut [u32],
    pages: &mut [u32],
) -> Result<StepAnswer, Refusal>
    requires { AtHand work.old locks.old pages.old × (1 ≤ work.old.party.step) × (work.old.party.step ≤ 8) }
    ensures { left result work.new locks.new pages.new ≡ step_of work.old.party.step (seen work.old locks.old pages.old) }
{
    match work.party.step {
        1 => locate::step_01(work, locks),
        2 => locate::step_02(work, locks, pages),
        3 => locate::step_03(work, locks, pages),
        4 => locate::step_04(work, locks),
        5 => locate::step_05(work, locks),
        6 => chase::step_06(work, locks, pages),
        7 => chase::step_07(work, locks),
        _ => chase::step_08(work, locks),
    }
}

// 10 to 14, which insert and delete have.
fn change_step(
    work: &mut Working,
    locks: &mut [u32],
    pages: &mut [u32],
) -> Result<StepAnswer, Refusal>
    requires { AtHand work.old locks.old pages.old × (10 ≤ work.old.party.step) × (work.old.party.step ≤ 14) }
    ensures { left result work.new locks.new pages.new ≡ step_of work.old.party.step (seen work.old locks.old pages.old) }
{
    match work.party.step {
        10 => rebuild::step_10(work, locks, pages),
        11 => write::step_11(work, locks, pages),
        12 => write::step_12(work, locks, pages),
        13 => old_pages::step_13(work, locks, pages),
        _ => old_pages::step_14(work, locks, pages),
    }
}

// 15 to 22, which insert has.
fn split_step(
    work: &mut Working,
    locks: &mut [u32],
    pages: &mut [u32],
) -> Result<StepAnswer, Refusal>
    requires { AtHand work.old locks.old pages.old × (15 ≤ work.old.party.step) × (work.old.party.step ≤ 22) }
    ensures { left result work.new locks.new pages.new ≡ step_of work.old.party.step (seen work.old locks.old pages.old) }
{
    match work.party.step {
        15 => split_locks::step_15(work, locks),
        16 => split_locks::step_16(work, locks, pages),
        17 => split_build::step_17(work, locks, pages),
        18 => split_write::step_18(work, locks, pages),
        19 => split_locks::step_19(work, locks),
        20 => split_write::step_20(work, locks, pages),
        21 => split_write::step_21(work, locks, pages),
        _ => split_locks::step_22(work, locks, pages),
    }
}

// 23 to 30, which delete has.
fn merge_step(
    work: &mut Working,
    locks: &mut [u32],
    pages: &mut [u32],
) -> Result<StepAnswer, Refusal>
    requires { AtHand work.old locks.old pages.old × (23 ≤ work.old.party.step) × (work.old.party.step ≤ 30) }
    ensures { left result work.new locks.new pages.new ≡ step_of work.old.party.step (seen work.old locks.old pages.old) }
{
    match work.party.step {
        23 => merge_locks::step_23(work, locks),
        24 => merge_locks::step_24(work, locks, pages),
        25 => merge_locks::step_25(work, locks),
        26 => merge_build::step_26(work, locks, pages),
        27 => merge_write::step_27(work, locks, pages),
        28 => merge_write::step_28(work, locks, pages),
        29 => merge_write::step_29(work, locks, pages),
        _ => merge_locks::step_30(work, locks, pages),
    }
}

// The step with the number in the party's record; 9 is the find's own.
pub fn step_by_number(
    work: &mut Working,
    locks: &mut [u32],
    pages: &mut [u32],
) -> Result<StepAnswer, Refusal>
    requires { AtHand work.old locks.old pages.old }
    ensures { left result work.new locks.new pages.new ≡ step_of work.old.party.step (seen work.old locks.old pages.old) }
{
    match work.party.step {
        1..=8 => locate_step(work, locks, pages),
        9 => find::step_09(work, locks, pages),
        10..=14 => change_step(work, locks, pages),
        15..=22 => split_step(work, locks, pages),
        _ => merge_step(work, locks, pages),
    }
}
