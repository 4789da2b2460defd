ghost use Rattle.std.specs.Prelude.{◌≡◌, ℕ, ◌+◌, ◌*◌, ◌<◌, ◌≤◌, ◌^◌, ◌↔◌, List, length, All, IsTrue, IfOk, IfSome, MatchBool, slice_set};
ghost use Rattle.pickers.specs.Choices.{GoesFirst, IsOpen, Beats, IsFound};
ghost use Rattle.pickers.specs.Tree.{leader_of, IsUnder, AreLed, AreLedBut, IsRefreshed, LeadsOpen};

use crate::first::is_open;

fn goes_first(numbers: &[u64], a: u32, b: u32) -> bool
    requires one { a < length numbers.now }
    requires other { b < length numbers.now }
    ensures { MatchBool result (GoesFirst numbers.now a b) (GoesFirst numbers.now b a) }
{
    let one = numbers[a as usize];
    let other = numbers[b as usize];
    other < one || (other == one && a <= b)
}

fn leader(leaders: &[u32], node: usize) -> u32
    requires bound { length leaders.now < 2 ^ 32 }
    requires node { node < 2 * length leaders.now }
    requires range { All (λ v. v < length leaders.now) leaders.now }
    ensures leader { result ≡ leader_of leaders.now node }
    ensures range { result < length leaders.now }
{
    if node < leaders.len() {
        leaders[node]
    } else {
        (node - leaders.len()) as u32
    }
}

/// Makes that one of the leaders of the two nodes under a node its leader that goes first.
pub(crate) fn refresh(numbers: &[u64], leaders: &mut [u32], node: usize)
    requires bound { length numbers.now < 2 ^ 32 }
    requires same { length leaders.old ≡ length numbers.now }
    requires node { node < length numbers.now }
    requires range { All (λ v. v < length leaders.old) leaders.old }
    ensures { IsRefreshed numbers.now leaders.old leaders.new node }
{
    let left = leader(leaders, 2 * node);
    let right = leader(leaders, 2 * node + 1);
    leaders[node] = if goes_first(numbers, left, right) {
        left
    } else {
        right
    };
}

/// Refreshes a node and all above it.
pub(crate) fn climb(numbers: &[u64], leaders: &mut [u32], from: usize)
    requires bound { length numbers.now < 2 ^ 32 }
    requires same { length leaders.old ≡ length numbers.now }
    requires node { from < length numbers.now }
    requires range { All (λ v. v < length leaders.old) leaders.old }
    requires led { AreLedBut numbers.now leaders.old from }
    ensures range { All (λ v. v < length leaders.new) leaders.new }
    ensures led { AreLed numbers.now leaders.new }
{
    let mut node = from;
    'climbing: while node > 0 {
        refresh(numbers, leaders, node);
        node /= 2;
    }
}

fn is_beaten(numbers: &[u64], found: Option<u32>, var: u32) -> bool
    requires found { IfSome found (λ v. v < length numbers.now) }
    requires var { var < length numbers.now }
    ensures { MatchBool result (Beats numbers.now found var) (IfSome found (λ v. GoesFirst numbers.now var v)) }
{
    match found {
        Some(other) => goes_first(numbers, other, var),
        None => false,
    }
}

/// The variable that goes first of what was found so far and of those under a node that are unset and have a number
/// above 0. It leaves out each part of the tree whose leader is unset, or has the number 0, or goes behind what was
/// found.
pub(crate) fn first_under(
    numbers: &[u64],
    leaders: &[u32],
    unset: &[bool],
    node: usize,
    found: Option<u32>,
) -> Option<u32>
    requires bound { length numbers.now < 2 ^ 32 }
    requires same { length leaders.now ≡ length numbers.now }
    requires range { All (λ v. v < length leaders.now) leaders.now }
    requires led { AreLed numbers.now leaders.now }
    requires positive { 0 < node }
    requires node { node < 2 * length numbers.now }
    requires found { IsFound numbers.now unset.now found }
    ensures found { IsFound numbers.now unset.now result }
    ensures kept { (v : ℕ) → Beats numbers.now found v → Beats numbers.now result v }
    ensures first { LeadsOpen numbers.now unset.now node result }
{
    let best = leader(leaders, node);
    if numbers[best as usize] == 0 {
        return found;
    }
    if is_beaten(numbers, found, best) {
        return found;
    }
    if is_open(unset, best) {
        return Some(best);
    }
    if node >= numbers.len() {
        return found;
    }
    let left = first_under(numbers, leaders, unset, 2 * node, found);
    first_under(numbers, leaders, unset, 2 * node + 1, left)
}
