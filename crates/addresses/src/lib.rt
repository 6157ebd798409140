// Addresses of linear hashing, the number of chains, and how a split and a merge move level and next (document 01,
// "Addresses and locks" and the steps).
// Each function equals the model's definition of the same name, on every root record within its limits (RootFits).
// Located; span and hash; chain_count; split_barred, split_next, split_level; merge_barred, merge_partner,
// merge_target, merge_level.

#![tactic(auto)]

ghost use Rattle.std.specs.Prelude.{◌≡◌, false, ◌≤◌};
ghost use Rattle.model.specs.Addresses as Addresses;
ghost use Rattle.addresses.specs.Fits.{RootFits};

use model::{ChainAddress, Root};

// Where a key is: its chain, and the lev whose hash names it.
#[derive(Clone, Copy)]
pub struct Located {
    pub lev: u32,
    pub chain: ChainAddress,
}

// N × 2^i, at most 2^18.
fn span(n: u32, i: u32) -> u32
    requires { (n ≤ 256) × (i ≤ 10) }
    ensures { result ≡ Addresses.span n i }
{
    n << i
}

// "h_i(k) is k mod (2^i × N)", n being N, of a mixed key.
#[tactic(auto, using(model::proofs::Laws::Addresses::span_pos), unfolding(model::specs::Addresses::hash_of))]
pub fn hash(n: u32, i: u32, m: u32) -> ChainAddress
    requires { (1 ≤ n) × (n ≤ 256) × (i ≤ 10) }
    ensures { result.0 ≡ Addresses.hash_of n i m }
{
    ChainAddress(m % span(n, i))
}

// "n is N × 2^level + next, the number of chains outside a restructuring."
#[tactic(auto, using(crate::proofs::Limits::span_fits), unfolding(model::specs::Addresses::chain_count))]
pub fn chain_count(root: Root) -> u32
    requires { RootFits root }
    ensures { result ≡ Addresses.chain_count root.originals root.level root.next }
{
    span(root.originals, root.level) + root.next
}

// "if n = P" (step 16): no chain is left to split into.
#[tactic(auto, unfolding(model::specs::Addresses::split_barred))]
pub fn split_barred(root: Root) -> bool
    requires { RootFits root }
    ensures { result ≡ Addresses.split_barred (Addresses.chain_count root.originals root.level root.next) root.primaries }
{
    chain_count(root) == root.primaries
}

// "next becomes (next + 1) mod (N × 2^level)" (step 20).
pub fn split_next(root: Root) -> u32
    requires { RootFits root }
    ensures { result ≡ Addresses.split_next root.originals root.level root.next }
{
    (root.next + 1) % span(root.originals, root.level)
}

// "if next is 0, raise level" (step 21).
#[tactic(auto, unfolding(model::specs::Addresses::split_level))]
pub fn split_level(root: Root) -> u32
    requires { root.level ≤ 8 }
    ensures { result ≡ Addresses.split_level root.level root.next }
{
    if root.next == 0 {
        root.level + 1
    } else {
        root.level
    }
}

// "if n = N" (step 24): every chain is an original one, so none can be merged away.
#[tactic(auto, unfolding(model::specs::Addresses::merge_barred))]
pub fn merge_barred(root: Root) -> bool
    requires { RootFits root }
    ensures { result ≡ Addresses.merge_barred (Addresses.chain_count root.originals root.level root.next) root.originals }
{
    chain_count(root) == root.originals
}

// "The partner is chain n − 1" (step 24).
pub fn merge_partner(root: Root) -> ChainAddress
    requires { RootFits root }
    ensures { result.0 ≡ Addresses.merge_partner root.originals root.level root.next }
{
    ChainAddress(chain_count(root) - 1)
}

// "the target is next − 1, or N × 2^(level−1) − 1 if next is 0" (step 24). A merge that is not barred and finds next 0
// has a level to lower.
pub fn merge_target(root: Root) -> ChainAddress
    requires { (RootFits root) × (Addresses.merge_barred (Addresses.chain_count root.originals root.level root.next) root.originals ≡ false) }
    ensures { result.0 ≡ Addresses.merge_target root.originals root.level root.next }
{
    if root.next == 0 {
        ChainAddress(span(root.originals, root.level - 1) - 1)
    } else {
        ChainAddress(root.next - 1)
    }
}

// "if next was 0, lower level" (step 27).
// One function with split_level would be given the way as a flag.
#[tactic(auto, using(crate::proofs::Limits::unbarred_has_level), unfolding(model::specs::Addresses::merge_level))]
pub fn merge_level(root: Root) -> u32
    requires { (RootFits root) × (Addresses.merge_barred (Addresses.chain_count root.originals root.level root.next) root.originals ≡ false) }
    ensures { result ≡ Addresses.merge_level root.level root.next }
{
    if root.next == 0 {
        root.level - 1
    } else {
        root.level
    }
}
